ghost use Rattle.std.specs.Prelude.{◌≡◌, IfOk, map};
ghost use Rattle.theory_formula.specs.SignCondition.{decided};
ghost use Rattle.theory_signs.specs.Plain.{formula_of};
ghost use Rattle.theory_simplify.specs.Drafts.{draft_of};

use crate::lent::LentAtom;
use std::alloc::Global;
use theory_points::NoMemory;
use theory_signs::{Formula, Formulas};

/// A formula on the way to its simplified form; the simplified one lends the polynomials.
#[derive(Drop)]
pub enum Draft<'a> {
    True,
    False,
    Atom(LentAtom<'a>),
    And(Drafts<'a>),
    Or(Drafts<'a>),
}

/// A list of drafts.
pub type Drafts<'a> = Vec<Draft<'a>>;

/// The draft that is always or never true.
pub fn decision<'a>(truth: bool) -> Draft<'a>
    ensures { draft_of result ≡ decided truth }
{
    if truth { Draft::True } else { Draft::False }
}

/// The formula as a draft.
#[cycle(drafted)]
pub fn drafted<'a>(alloc: Global, formula: &'a Formula) -> Result<Draft<'a>, NoMemory>
    ensures { IfOk result (λ D. draft_of D ≡ formula_of formula.now) }
{
    Ok(match formula {
        Formula::True => Draft::True,
        Formula::False => Draft::False,
        Formula::Atom(atom) => Draft::Atom(LentAtom::new(atom)),
        Formula::And(members) => Draft::And(all_drafted(alloc, members)?),
        Formula::Or(members) => Draft::Or(all_drafted(alloc, members)?),
    })
}

#[cycle(drafted)]
fn all_drafted<'a>(alloc: Global, formulas: &'a [Formula]) -> Result<Drafts<'a>, NoMemory>
    ensures { IfOk result (λ Ds. map draft_of Ds.items ≡ map formula_of formulas.now) }
{
    let mut all = Vec::new(alloc);
    for formula in formulas {
        all.push(drafted(alloc, formula)?)?;
    }
    Ok(all)
}

/// The formula that a draft stands for, with polynomials of its own.
#[cycle(made)]
pub fn to_formula(alloc: Global, draft: &Draft<'_>) -> Result<Formula, NoMemory>
    ensures { IfOk result (λ F. formula_of F ≡ draft_of draft.now) }
{
    Ok(match draft {
        Draft::True => Formula::True,
        Draft::False => Formula::False,
        Draft::Atom(atom) => Formula::Atom(atom.to_atom(alloc)?),
        Draft::And(members) => Formula::And(to_formulas(alloc, members)?),
        Draft::Or(members) => Formula::Or(to_formulas(alloc, members)?),
    })
}

#[cycle(made)]
fn to_formulas(alloc: Global, drafts: &[Draft<'_>]) -> Result<Formulas, NoMemory>
    ensures { IfOk result (λ Fs. map formula_of Fs.items ≡ map draft_of drafts.now) }
{
    let mut all = Vec::new(alloc);
    for draft in drafts {
        all.push(to_formula(alloc, draft)?)?;
    }
    Ok(all)
}
