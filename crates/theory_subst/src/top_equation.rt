ghost use Rattle.std.specs.Prelude.{◌≡◌, ◌<◌, ◌||◌, not, [], ◌∷◌, map, IfOk};
ghost use Rattle.theory_formula.specs.Formula.{formulas_from, EachAtomOfAll};
ghost use Rattle.theory_formula.specs.Formula as plain;
ghost use Rattle.theory_elimination.specs.TestPoint.{is_constant};
ghost use Rattle.theory_elimination.specs.Branches.{equation_of, equation_if, taken_behind, top_equation, members_of, or_else, plain_equation_of};
ghost use Rattle.theory_elimination.specs.Elimination.{IsLinear, IsLinearAtom};
ghost use Rattle.theory_signs.specs.Plain.{formula_of};
ghost use Rattle.theory_subst.specs.Equations.{equation_with, ArePartsOf, IsFirst};

use crate::slope::sign_of_slope;
use std::alloc::Global;
use theory_points::NoMemory;
use theory_poly::Poly;
use theory_signs::{Atom, Formula, Signs};

/// An equation of the top level in which the symbol occurs, by its place among the members from 0.
#[derive(Drop)]
pub struct TopEquation {
    pub place: usize,
    pub slope: Poly,
    pub base: Poly,
}

/// The first equation with a slope without symbols, and else the first equation.
pub fn top_equation(
    alloc: Global,
    x: u8,
    formula: &Formula,
) -> Result<Option<TopEquation>, NoMemory>
    requires symbol { x < 32 }
    requires linear { IsLinear x (formula_of formula.now) }
    ensures { IfOk result (IsFirst x (members_of (formula_of formula.now))
        (top_equation x (formula_of formula.now))) }
{
    match formula {
        Formula::And(members) => preferred(alloc, x, members),
        Formula::Atom(_) => lone_equation(alloc, x, formula),
        Formula::True | Formula::False | Formula::Or(_) => Ok(None),
    }
}

/// The equation that a formula is, without other members.
fn lone_equation(alloc: Global, x: u8, formula: &Formula) -> Result<Option<TopEquation>, NoMemory>
    requires symbol { x < 32 }
    requires linear { IsLinear x (formula_of formula.now) }
    ensures { IfOk result (IsFirst x (formula_of formula.now ∷ [])
        (taken_behind (equation_of x) [] (formula_of formula.now ∷ []))) }
{
    match equation(alloc, x, false, formula)? {
        Some((slope, base)) => Ok(Some(TopEquation {
            place: 0,
            slope,
            base,
        })),
        None => Ok(None),
    }
}

fn preferred(alloc: Global, x: u8, members: &[Formula]) -> Result<Option<TopEquation>, NoMemory>
    requires symbol { x < 32 }
    requires linear { EachAtomOfAll (IsLinearAtom x) (formulas_from (map formula_of members.now)) }
    ensures { IfOk result (IsFirst x (map formula_of members.now) (or_else
        (taken_behind (plain_equation_of x) [] (map formula_of members.now))
        (taken_behind (equation_of x) [] (map formula_of members.now)))) }
{
    match first(alloc, x, true, members)? {
        Some(found) => Ok(Some(found)),
        None => first(alloc, x, false, members),
    }
}

/// The first equation in the symbol, or the first with a slope without symbols.
fn first(
    alloc: Global,
    x: u8,
    plain: bool,
    members: &[Formula],
) -> Result<Option<TopEquation>, NoMemory>
    requires symbol { x < 32 }
    requires linear { EachAtomOfAll (IsLinearAtom x) (formulas_from (map formula_of members.now)) }
    ensures { IfOk result (IsFirst x (map formula_of members.now)
        (taken_behind (equation_with plain x) [] (map formula_of members.now))) }
{
    for (place, member) in members.iter().enumerate() {
        match equation(alloc, x, plain, member)? {
            Some((slope, base)) => return Ok(Some(TopEquation { place, slope, base })),
            None => {}
        }
    }
    Ok(None)
}

/// Slope and base of an equation in the symbol, or of one with a slope without symbols.
fn equation(
    alloc: Global,
    x: u8,
    plain: bool,
    formula: &Formula,
) -> Result<Option<(Poly, Poly)>, NoMemory>
    requires symbol { x < 32 }
    requires linear { IsLinear x (formula_of formula.now) }
    ensures { IfOk result (ArePartsOf x (equation_with plain x (formula_of formula.now))) }
{
    match formula {
        Formula::Atom(atom) => {
            if !is_equation(x, atom) {
                return Ok(None);
            }
            let (slope, base) = atom.poly().split_linear(alloc, x)?;
            if !is_wanted(plain, &slope) {
                return Ok(None);
            }
            Ok(Some((slope, base)))
        }
        _ => Ok(None),
    }
}

/// Whether the atom is an equation in which the symbol occurs.
fn is_equation(x: u8, atom: &Atom) -> bool
    requires { x < 32 }
    ensures { equation_of x (plain.atom atom.now.poly atom.now.signs)
        ≡ equation_if result atom.now.poly }
{
    match atom.signs() {
        Signs::Zero => atom.poly().degree_in(x) > 0,
        _ => false,
    }
}

fn is_wanted(plain: bool, slope: &Poly) -> bool
    ensures { result ≡ (not plain || is_constant slope.now) }
{
    !plain || sign_of_slope(slope).is_some()
}
