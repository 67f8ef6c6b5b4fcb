ghost use Rattle.std.specs.Prelude.{◌≡◌, IfOk, map};
ghost use Rattle.theory_signs.specs.Plain.{formula_of};

use crate::formula::{Formula, Formulas};
use std::alloc::Global;
use theory_points::NoMemory;

impl Formula {
    /// An equal value.
    pub fn copy(&self, alloc: Global) -> Result<Formula, NoMemory>
        ensures { IfOk result (λ F. formula_of F ≡ formula_of self.now) }
    {
        copied(alloc, self)
    }
}

#[cycle(copied)]
fn copied(alloc: Global, formula: &Formula) -> Result<Formula, NoMemory>
    ensures { IfOk result (λ F. formula_of F ≡ formula_of formula.now) }
{
    Ok(match formula {
        Formula::True => Formula::True,
        Formula::False => Formula::False,
        Formula::Atom(atom) => Formula::Atom(atom.with_signs(alloc, atom.signs())?),
        Formula::And(members) => Formula::And(copied_all(alloc, members)?),
        Formula::Or(members) => Formula::Or(copied_all(alloc, members)?),
    })
}

#[cycle(copied)]
fn copied_all(alloc: Global, formulas: &[Formula]) -> Result<Formulas, NoMemory>
    ensures { IfOk result (λ Fs. map formula_of Fs.items ≡ map formula_of formulas.now) }
{
    let mut all = Vec::new(alloc);
    for formula in formulas {
        all.push(copied(alloc, formula)?)?;
    }
    Ok(all)
}
