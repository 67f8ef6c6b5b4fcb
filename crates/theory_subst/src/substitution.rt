ghost use Rattle.std.specs.Prelude.{◌≡◌, ◌<◌, ◌++◌, [], ◌∷◌, map, IfOk, OnOk};
ghost use Rattle.theory_formula.specs.Formula.{EachAtomOfAll, formulas_from};
ghost use Rattle.theory_elimination.specs.Elimination.{IsLinear, IsLinearAtom};
ghost use Rattle.theory_elimination.specs.Substituted.{IsFormulaAt, AreFormulasAt};
ghost use Rattle.theory_elimination.specs.Widths.{IsWideAt};
ghost use Rattle.theory_poly.specs.Answers.{WideWhere};
ghost use Rattle.theory_signs.specs.Plain.{formula_of};
ghost use Rattle.theory_subst.specs.Points.{point_of};
ghost use Rattle.theory_subst.specs.Lines.{IsWideAmong};

use crate::line::atom_at;
use crate::test_point::TestPoint;
use std::alloc::Global;
use theory_points::{Limit, NoMemory};
use theory_signs::{Formula, Formulas};

/// The formula at a test point of the symbol, without its guard.
pub fn substitute(alloc: Global, x: u8, formula: &Formula, at: &TestPoint) -> Result<Formula, Limit>
    requires symbol { x < 32 }
    requires linear { IsLinear x (formula_of formula.now) }
    ensures written { IfOk result (λ F.
        IsFormulaAt x (point_of at.now) (formula_of formula.now) (formula_of F)) }
    ensures wide { WideWhere (IsWideAt x (point_of at.now) (formula_of formula.now)) result }
{
    substituted(alloc, x, at, formula)
}

#[cycle(substituted)]
fn substituted(alloc: Global, x: u8, at: &TestPoint, formula: &Formula) -> Result<Formula, Limit>
    requires symbol { x < 32 }
    requires linear { IsLinear x (formula_of formula.now) }
    ensures written { IfOk result (λ F.
        IsFormulaAt x (point_of at.now) (formula_of formula.now) (formula_of F)) }
    ensures wide { WideWhere (IsWideAt x (point_of at.now) (formula_of formula.now)) result }
{
    match formula {
        Formula::True => Ok(Formula::True),
        Formula::False => Ok(Formula::False),
        Formula::Atom(atom) => {
            if atom.poly().degree_in(x) == 0 {
                Ok(formula.copy(alloc)?)
            } else {
                atom_at(alloc, x, at, atom.poly(), atom.signs())
            }
        }
        Formula::And(members) => match all_substituted(alloc, x, at, members) {
            Ok(members) => Ok(Formula::And(members)),
            Err(limit) => Err(limit),
        },
        Formula::Or(members) => match all_substituted(alloc, x, at, members) {
            Ok(members) => Ok(Formula::Or(members)),
            Err(limit) => Err(limit),
        },
    }
}

#[cycle(substituted)]
fn all_substituted(
    alloc: Global,
    x: u8,
    at: &TestPoint,
    formulas: &[Formula],
) -> Result<Formulas, Limit>
    requires symbol { x < 32 }
    requires linear { EachAtomOfAll (IsLinearAtom x) (formulas_from (map formula_of formulas.now)) }
    ensures written { IfOk result (λ Fs. AreFormulasAt x (point_of at.now)
        (formulas_from (map formula_of formulas.now)) (formulas_from (map formula_of Fs.items))) }
    ensures wide { WideWhere
        (IsWideAmong x (point_of at.now) (formulas_from (map formula_of formulas.now))) result }
{
    let mut all = Vec::new(alloc);
    for formula in formulas {
        match substituted(alloc, x, at, formula) {
            Ok(there) => keep(&mut all, there)?,
            Err(limit) => return Err(limit),
        }
    }
    Ok(all)
}

/// Adds a member at the end.
pub fn keep(members: &mut Formulas, formula: Formula) -> Result<(), NoMemory>
    ensures { OnOk result (members.new.items ≡ members.old.items ++ formula ∷ []) }
{
    members.push(formula)?;
    Ok(())
}
