ghost use Rattle.std.specs.Prelude.{◌≡◌, ◌<◌, IfOk, OnOk, map};
ghost use Rattle.std.specs.Option.{option_map};
ghost use Rattle.theory_polynomial.specs.Polynomial.{IsLinearIn};
ghost use Rattle.theory_formula.specs.Formula.{formulas_from, EachAtomOfAll};
ghost use Rattle.theory_formula.specs.FormulaAtoms.{atoms_of, atoms_of_all};
ghost use Rattle.theory_elimination.specs.TestPoint.{end_of, listed, is_constant, ends_by_slope, ends_of_atom, ends_of_atoms};
ghost use Rattle.theory_elimination.specs.Elimination.{IsLinear, IsLinearAtom};
ghost use Rattle.theory_signs.specs.Plain.{formula_of};
ghost use Rattle.theory_subst.specs.Points.{point_of, points_of, with_new};

use crate::sameness::is_among;
use crate::slope::sign_of_slope;
use crate::test_point::{TestPoint, TestPoints};
use std::alloc::Global;
use theory_meaning::Sign;
use theory_points::NoMemory;
use theory_poly::Poly;
use theory_signs::{Atom, Formula, Signs};

/// Adds the upper ends of the atoms in reading order that aren't there yet.
#[cycle(ends)]
pub fn add_ends(
    alloc: Global,
    x: u8,
    formula: &Formula,
    points: &mut TestPoints,
) -> Result<(), NoMemory>
    requires symbol { x < 32 }
    requires linear { IsLinear x (formula_of formula.now) }
    ensures { OnOk result (points_of points.new.items
        ≡ with_new (points_of points.old.items)
        (ends_of_atoms x (atoms_of (formula_of formula.now)))) }
{
    match formula {
        Formula::True | Formula::False => Ok(()),
        Formula::Atom(atom) => add_ends_of_atom(alloc, x, atom, points),
        Formula::And(members) | Formula::Or(members) => {
            add_ends_of_all(alloc, x, members, points)
        }
    }
}

#[cycle(ends)]
fn add_ends_of_all(
    alloc: Global,
    x: u8,
    members: &[Formula],
    points: &mut TestPoints,
) -> Result<(), NoMemory>
    requires symbol { x < 32 }
    requires linear { EachAtomOfAll (IsLinearAtom x) (formulas_from (map formula_of members.now)) }
    ensures { OnOk result (points_of points.new.items ≡ with_new (points_of points.old.items)
        (ends_of_atoms x (atoms_of_all (formulas_from (map formula_of members.now))))) }
{
    for member in members {
        add_ends(alloc, x, member, points)?;
    }
    Ok(())
}

fn add_ends_of_atom(
    alloc: Global,
    x: u8,
    atom: &Atom,
    points: &mut TestPoints,
) -> Result<(), NoMemory>
    requires symbol { x < 32 }
    requires linear { IsLinearIn x atom.now.poly }
    ensures { OnOk result (points_of points.new.items
        ≡ with_new (points_of points.old.items) (ends_of_atom x atom.now.poly atom.now.signs)) }
{
    if atom.poly().degree_in(x) == 0 {
        return Ok(());
    }
    let (slope, base) = atom.poly().split_linear(alloc, x)?;
    add_ends_of_line(alloc, atom.signs(), &slope, &base, points)
}

/// Adds the upper ends for each sign that the slope may have.
fn add_ends_of_line(
    alloc: Global,
    signs: Signs,
    slope: &Poly,
    base: &Poly,
    points: &mut TestPoints,
) -> Result<(), NoMemory>
    ensures { OnOk result (points_of points.new.items ≡ with_new (points_of points.old.items)
        (ends_by_slope (is_constant slope.now) signs slope.now base.now)) }
{
    match sign_of_slope(slope) {
        Some(sign) => add_end(alloc, signs, sign, slope, base, points),
        None => {
            add_end(alloc, signs, Sign::Plus, slope, base, points)?;
            add_end(alloc, signs, Sign::Minus, slope, base, points)
        }
    }
}

/// Adds the upper end for a sign of the slope, if there is one and it isn't there yet.
fn add_end(
    alloc: Global,
    signs: Signs,
    sign: Sign,
    slope: &Poly,
    base: &Poly,
    points: &mut TestPoints,
) -> Result<(), NoMemory>
    ensures { OnOk result (points_of points.new.items
        ≡ with_new (points_of points.old.items) (listed (end_of signs sign slope.now base.now))) }
{
    match end(alloc, signs, sign, slope, base)? {
        Some(point) => {
            if !is_among(points, &point) {
                points.push(point)?;
            }
            Ok(())
        }
        None => Ok(()),
    }
}

/// The upper end of the values at which the condition on a line holds.
fn end(
    alloc: Global,
    signs: Signs,
    sign: Sign,
    slope: &Poly,
    base: &Poly,
) -> Result<Option<TestPoint>, NoMemory>
    ensures { IfOk result (λ found.
        option_map point_of found ≡ end_of signs sign slope.now base.now) }
{
    match (signs, sign) {
        (Signs::Zero | Signs::NotPos, Sign::Plus) | (Signs::Zero | Signs::NotNeg, Sign::Minus) => {
            let point = TestPoint::Root(slope.copy(alloc)?, base.copy(alloc)?, sign);
            Ok(Some(point))
        }
        (Signs::Neg | Signs::NonZero, Sign::Plus) | (Signs::Pos | Signs::NonZero, Sign::Minus) => {
            let point = TestPoint::Before(slope.copy(alloc)?, base.copy(alloc)?, sign);
            Ok(Some(point))
        }
        _ => Ok(None),
    }
}
