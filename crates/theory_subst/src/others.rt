ghost use Rattle.std.specs.Prelude.{◌≡◌, ◌<◌, map, IfOk};
ghost use Rattle.theory_formula.specs.Formula.{EachAtomOfAll, formulas_from};
ghost use Rattle.theory_elimination.specs.Branches.{others_of};
ghost use Rattle.theory_elimination.specs.Elimination.{IsLinear, IsLinearAtom};
ghost use Rattle.theory_elimination.specs.Substituted.{IsFormulaAt, AreFormulasAt};
ghost use Rattle.theory_elimination.specs.Widths.{IsWideAt};
ghost use Rattle.theory_poly.specs.Answers.{WideWhere};
ghost use Rattle.theory_signs.specs.Plain.{formula_of};
ghost use Rattle.theory_subst.specs.Equations.{without};
ghost use Rattle.theory_subst.specs.Lines.{IsWideAmong};
ghost use Rattle.theory_subst.specs.Plans.{left_of};
ghost use Rattle.theory_subst.specs.Points.{point_of};

use crate::substitution::{keep, substitute};
use crate::test_point::TestPoint;
use std::alloc::Global;
use theory_points::{Limit, NoMemory};
use theory_signs::{Formula, Formulas};

/// The other members than the one at a place from 0, at a test point.
pub fn left_at(
    alloc: Global,
    x: u8,
    formula: &Formula,
    place: usize,
    at: &TestPoint,
) -> Result<Formula, Limit>
    requires symbol { x < 32 }
    requires linear { IsLinear x (formula_of formula.now) }
    ensures written { IfOk result (λ F. IsFormulaAt x (point_of at.now)
        (left_of place (formula_of formula.now)) (formula_of F)) }
    ensures wide { WideWhere
        (IsWideAt x (point_of at.now) (left_of place (formula_of formula.now))) result }
{
    match formula {
        Formula::And(members) => match others_at(alloc, x, members, place, at) {
            Ok(others) => Ok(together(others)),
            Err(limit) => Err(limit),
        },
        _ => Ok(Formula::True),
    }
}

fn others_at(
    alloc: Global,
    x: u8,
    members: &[Formula],
    place: usize,
    at: &TestPoint,
) -> Result<Formulas, Limit>
    requires symbol { x < 32 }
    requires linear { EachAtomOfAll (IsLinearAtom x) (formulas_from (map formula_of members.now)) }
    ensures written { IfOk result (λ Fs. AreFormulasAt x (point_of at.now)
        (formulas_from (without place (map formula_of members.now)))
        (formulas_from (map formula_of Fs.items))) }
    ensures wide { WideWhere (IsWideAmong x (point_of at.now)
        (formulas_from (without place (map formula_of members.now)))) result }
{
    let mut others = Vec::new(alloc);
    for (k, member) in members.iter().enumerate() {
        if k != place {
            match substitute(alloc, x, member, at) {
                Ok(there) => keep(&mut others, there)?,
                Err(limit) => return Err(limit),
            }
        }
    }
    Ok(others)
}

/// The other members than the one at a place from 0, as they stand.
pub fn left(alloc: Global, formula: &Formula, place: usize) -> Result<Formula, NoMemory>
    ensures { IfOk result (λ F. formula_of F ≡ left_of place (formula_of formula.now)) }
{
    match formula {
        Formula::And(members) => Ok(together(but_one(alloc, members, place)?)),
        _ => Ok(Formula::True),
    }
}

/// Equal members but for the one at a place from 0.
fn but_one(alloc: Global, members: &[Formula], at: usize) -> Result<Formulas, NoMemory>
    ensures { IfOk result (λ others.
        map formula_of others.items ≡ without at (map formula_of members.now)) }
{
    let mut others = Vec::new(alloc);
    for (place, member) in members.iter().enumerate() {
        if place != at {
            others.push(member.copy(alloc)?)?;
        }
    }
    Ok(others)
}

/// All members; True where there is none.
fn together(members: Formulas) -> Formula
    ensures { formula_of result ≡ others_of (map formula_of members.items) }
{
    if members.is_empty() {
        return Formula::True;
    }
    Formula::And(members)
}
