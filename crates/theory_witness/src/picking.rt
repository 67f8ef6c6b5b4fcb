ghost use Rattle.std.specs.Prelude.{◌≡◌, ◌<◌, find, IfOk};
ghost use Rattle.theory_formula.specs.Formula.{truth_at};
ghost use Rattle.theory_signs.specs.Plain.{formula_of};
ghost use Rattle.theory_decision.specs.Witness.{only_at};
ghost use Rattle.theory_witness.specs.Lines.{IsInOne};
ghost use Rattle.theory_witness.specs.Picked.{IsAnswer, IsPicked, IsRightPick};

use crate::candidates::candidates;
use crate::ratio::Ratio;
use crate::roots::roots_of;
use crate::trial::is_true_at;
use std::alloc::Global;
use theory_points::{Frac, NoMemory};
use theory_signs::Formula;

/// What is picked for a symbol.
#[derive(Clone, Copy, Debug)]
pub enum Picked {
    /// The first value that fits.
    Value(Frac),
    /// The first value that fits passes the bound of fractions.
    Wide,
    /// No value fits.
    Nowhere,
}

/// The first value of the written order at which a formula in one symbol is true.
pub fn pick(alloc: Global, x: u8, formula: &Formula) -> Result<Picked, NoMemory>
    requires symbol { x < 32 }
    requires only { IsInOne x (formula_of formula.now) }
    ensures written { IfOk result (IsPicked x (formula_of formula.now)) }

    // A value makes the formula true, and Nowhere comes exactly where none does.
    ensures right { IfOk result (IsRightPick x (formula_of formula.now)) }
{
    let roots = roots_of(alloc, x, formula)?;
    let tried = candidates(alloc, &roots)?;
    Ok(answer(first_that_fits(x, formula, &tried)))
}

// Values that pass the bound are tried like others.
fn first_that_fits(x: u8, formula: &Formula, tried: &[Ratio]) -> Option<Ratio>
    requires symbol { x < 32 }
    requires only { IsInOne x (formula_of formula.now) }
    ensures { result ≡ find (λ q. truth_at (formula_of formula.now) (only_at x q)) tried.now }
{
    for at in tried {
        if is_true_at(x, formula, at) {
            return Some(*at);
        }
    }
    None
}

// What is answered where this is the first value that fits.
fn answer(first: Option<Ratio>) -> Picked
    ensures { IsAnswer first result }
{
    match first {
        Some(at) => match at.reduced() {
            Some(value) => Picked::Value(value),
            None => Picked::Wide,
        },
        None => Picked::Nowhere,
    }
}
