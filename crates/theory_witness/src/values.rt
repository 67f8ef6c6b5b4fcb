ghost use Rattle.std.specs.Prelude.{◌≡◌, IfOk, OnOk};
ghost use Rattle.theory_elimination.specs.Elimination.{with_value};
ghost use Rattle.theory_polynomial.specs.PolynomialValue.{symbol_at};
ghost use Rattle.theory_decision.specs.Witness.{other_values};
ghost use Rattle.theory_witness.specs.Values.{IsFilledUp};

use std::alloc::Global;
use theory_points::{Frac, NoMemory};

/// The value of a symbol, 0 past the last.
pub fn value_of(values: &[Frac], x: u8) -> Frac
    ensures { result ≡ symbol_at x values.now }
{
    match values.get(x as usize) {
        Some(value) => *value,
        None => Frac::zero(),
    }
}

/// Of the first symbols all but one, upwards, with their values.
pub fn values_of_others(
    alloc: Global,
    count: u8,
    x: u8,
    values: &[Frac],
) -> Result<Vec<(u8, Frac)>, NoMemory>
    ensures { IfOk result (λ others. others.items ≡ other_values count x values.now) }
{
    let mut others = Vec::new(alloc);
    for y in 0..count {
        if y != x {
            others.push((y, value_of(values, y)))?;
        }
    }
    Ok(others)
}

/// Gives a symbol its value, and leaves every other as it was.
pub fn set_value(values: &mut Vec<Frac>, x: u8, value: Frac) -> Result<(), NoMemory>
    ensures { OnOk result (values.new.items ≡ with_value x value values.old.items) }
{
    fill_up(values, x)?;
    values[x as usize] = value;
    Ok(())
}

// Zeros at the end, until the symbol has a place.
fn fill_up(values: &mut Vec<Frac>, x: u8) -> Result<(), NoMemory>
    ensures { OnOk result (IsFilledUp x values.old.items values.new.items) }
{
    let end = x as usize + 1;
    for _ in values.len()..end {
        values.push(Frac::zero())?;
    }
    Ok(())
}
