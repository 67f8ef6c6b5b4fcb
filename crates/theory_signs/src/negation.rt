ghost use Rattle.std.specs.Prelude.{◌≡◌, IfOk, map, not};
ghost use Rattle.theory_polynomial.specs.PolynomialValue.{Values};
ghost use Rattle.theory_formula.specs.Formula.{negated, truth_at};
ghost use Rattle.theory_signs.specs.Plain.{formula_of};

use crate::formula::{Formula, Formulas};
use std::alloc::Global;
use theory_points::NoMemory;

/// The opposite: every set is complemented, and and or change places.
pub fn negate(alloc: Global, formula: &Formula) -> Result<Formula, NoMemory>
    ensures written { IfOk result (λ F. formula_of F ≡ negated (formula_of formula.now)) }

    // At every point it is true exactly where the formula isn't.
    ensures truth { IfOk result (λ F. (p : Values) →
        truth_at (formula_of F) p ≡ not (truth_at (formula_of formula.now) p)) }
{
    opposite(alloc, formula)
}

#[cycle(opposite)]
fn opposite(alloc: Global, formula: &Formula) -> Result<Formula, NoMemory>
    ensures { IfOk result (λ F. formula_of F ≡ negated (formula_of formula.now)) }
{
    match formula {
        Formula::True => Ok(Formula::False),
        Formula::False => Ok(Formula::True),
        Formula::Atom(atom) => Ok(Formula::Atom(atom.with_signs(
            alloc,
            atom.signs().complement(),
        )?)),
        Formula::And(members) => Ok(Formula::Or(opposites(alloc, members)?)),
        Formula::Or(members) => Ok(Formula::And(opposites(alloc, members)?)),
    }
}

#[cycle(opposite)]
fn opposites(alloc: Global, formulas: &[Formula]) -> Result<Formulas, NoMemory>
    ensures { IfOk result (λ Fs.
        map formula_of Fs.items ≡ map negated (map formula_of formulas.now)) }
{
    let mut all = Vec::new(alloc);
    for formula in formulas {
        all.push(opposite(alloc, formula)?)?;
    }
    Ok(all)
}
