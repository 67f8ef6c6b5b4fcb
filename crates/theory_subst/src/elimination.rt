ghost use Rattle.std.specs.Prelude.{◌≡◌, ◌<◌, IfOk, IfSome, IfNone, ℕ, map};
ghost use Rattle.theory_meaning.specs.Fraction.{Fraction};
ghost use Rattle.theory_polynomial.specs.PolynomialValue.{Values};
ghost use Rattle.theory_formula.specs.Formula.{IsTrueAt};
ghost use Rattle.theory_formula.specs.Formula as tree;
ghost use Rattle.theory_elimination.specs.Branches.{IsLevel, IsWrittenBy, only, plan_at};
ghost use Rattle.theory_elimination.specs.Substituted.{IsFormulaAt};
ghost use Rattle.theory_elimination.specs.Elimination.{with_value, IsLinear, IsLevelBranch, BranchIsTrueAt};
ghost use Rattle.theory_formula.specs.Symbols.{IsFree};
ghost use Rattle.theory_elimination.specs.Widths.{IsWidePlan, IsWideBranch};
ghost use Rattle.theory_poly.specs.Answers.{WideWhere};
ghost use Rattle.theory_signs.specs.Plain.{formula_of};
ghost use Rattle.theory_subst.specs.Answers.{IsKthBranch, IsWrittenByKth, IsWideKth};
ghost use Rattle.theory_subst.specs.Plans.{plan_of, plans_of, left_of, ArePlansOf};
ghost use Rattle.theory_subst.specs.Points.{point_of, points_of};

use crate::others::{left, left_at};
use crate::planning::{Plan, Plans, branch_plans};
use crate::substitution::substitute;
use crate::test_point::TestPoint;
use std::alloc::Global;
use theory_meaning::Sign;
use theory_points::{Limit, NoMemory};
use theory_poly::Poly;
use theory_signs::{Formula, Signs, make_atom};

/// The `k`-th branch of the formula in a symbol, from 0, before simplification; None past the last.
pub fn branch(alloc: Global, x: u8, formula: &Formula, k: u32) -> Result<Option<Formula>, Limit>
    requires symbol { x < 32 }
    requires linear { IsLinear x (formula_of formula.now) }
    ensures written { IfOk result (IsKthBranch x (formula_of formula.now) k) }

    // A branch is true only where some value of the symbol makes the formula true.
    ensures sound { IfOk result (λ found. IfSome found (λ G. (p : Values) →
        IsTrueAt (formula_of G) p →
        (v : Fraction) × IsTrueAt (formula_of formula.now) (with_value x v p))) }

    // Past the last, each point of the formula is one of some branch before.
    ensures complete { IfOk result (λ found. IfNone found ((p : Values) →
        IsTrueAt (formula_of formula.now) p →
        (j : ℕ) × (j < k) × BranchIsTrueAt x (formula_of formula.now) p j)) }

    // The symbol occurs in no branch but the third of an equation.
    ensures free { IfOk result (λ found. IfSome found (λ G.
        ¬ IsLevelBranch x (formula_of formula.now) k → IsFree x (formula_of G))) }

    // Wide exactly where a cross product of this branch passes a limit.
    ensures wide { WideWhere (IsWideBranch x (formula_of formula.now) k) result }
{
    let plans = branch_plans(alloc, x, formula)?;
    branch_at(alloc, x, formula, &plans, k as usize)
}

/// The `k`-th branch by plans that were made for this formula; None past the last.
pub fn branch_at(
    alloc: Global,
    x: u8,
    formula: &Formula,
    plans: &Plans,
    k: usize,
) -> Result<Option<Formula>, Limit>
    requires symbol { x < 32 }
    requires linear { IsLinear x (formula_of formula.now) }
    requires planned { ArePlansOf x (formula_of formula.now) plans.now }
    ensures written { IfOk result (IsKthBranch x (formula_of formula.now) k) }

    // A branch is true only where some value of the symbol makes the formula true.
    ensures sound { IfOk result (λ found. IfSome found (λ G. (p : Values) →
        IsTrueAt (formula_of G) p →
        (v : Fraction) × IsTrueAt (formula_of formula.now) (with_value x v p))) }

    // Past the last, each point of the formula is one of some branch before.
    ensures complete { IfOk result (λ found. IfNone found ((p : Values) →
        IsTrueAt (formula_of formula.now) p →
        (j : ℕ) × (j < k) × BranchIsTrueAt x (formula_of formula.now) p j)) }

    // The symbol occurs in no branch but the third of an equation.
    ensures free { IfOk result (λ found. IfSome found (λ G.
        ¬ IsLevelBranch x (formula_of formula.now) k → IsFree x (formula_of G))) }

    // Wide exactly where a cross product of this branch passes a limit.
    ensures wide { WideWhere (IsWideBranch x (formula_of formula.now) k) result }
{
    by_plans(alloc, x, formula, plans, k)
}

fn by_plans(
    alloc: Global,
    x: u8,
    formula: &Formula,
    plans: &Plans,
    k: usize,
) -> Result<Option<Formula>, Limit>
    requires symbol { x < 32 }
    requires linear { IsLinear x (formula_of formula.now) }
    ensures written { IfOk result
        (IsWrittenByKth x (plans_of (formula_of formula.now) plans.now) k) }
    ensures wide { WideWhere
        (IsWideKth x (plans_of (formula_of formula.now) plans.now) k) result }
{
    match plans {
        Plans::AtPoints(points) => by_point(alloc, x, formula, points, k),
        Plans::ByEquation(place, roots) => by_root(alloc, x, formula, *place, roots, k),
    }
}

/// The branch at the `k`-th test point.
fn by_point(
    alloc: Global,
    x: u8,
    formula: &Formula,
    points: &[TestPoint],
    k: usize,
) -> Result<Option<Formula>, Limit>
    requires symbol { x < 32 }
    requires linear { IsLinear x (formula_of formula.now) }
    ensures written { IfOk result (IsWrittenByKth x
        (map (plan_at (formula_of formula.now)) (points_of points.now)) k) }
    ensures wide { WideWhere (IsWideKth x
        (map (plan_at (formula_of formula.now)) (points_of points.now)) k) result }
{
    match points.get(k) {
        Some(point) => match at_point(alloc, x, formula, point) {
            Ok(found) => Ok(Some(found)),
            Err(limit) => Err(limit),
        },
        None => Ok(None),
    }
}

/// The formula at a test point, with the guard that its slope has its sign; infinity has none.
fn at_point(alloc: Global, x: u8, formula: &Formula, point: &TestPoint) -> Result<Formula, Limit>
    requires symbol { x < 32 }
    requires linear { IsLinear x (formula_of formula.now) }
    ensures written { IfOk result (λ G.
        IsWrittenBy x (plan_at (formula_of formula.now) (point_of point.now)) (formula_of G)) }
    ensures wide { WideWhere
        (IsWidePlan x (plan_at (formula_of formula.now) (point_of point.now))) result }
{
    let there = substitute(alloc, x, formula, point)?;
    Ok(guarded(alloc, point, there)?)
}

/// The branch by the `k`-th root of an equation, for the other members.
fn by_root(
    alloc: Global,
    x: u8,
    formula: &Formula,
    place: usize,
    roots: &[Plan],
    k: usize,
) -> Result<Option<Formula>, Limit>
    requires symbol { x < 32 }
    requires linear { IsLinear x (formula_of formula.now) }
    ensures written { IfOk result (IsWrittenByKth x
        (map (plan_of (left_of place (formula_of formula.now))) roots.now) k) }
    ensures wide { WideWhere (IsWideKth x
        (map (plan_of (left_of place (formula_of formula.now))) roots.now) k) result }
{
    match roots.get(k) {
        Some(plan) => match planned(alloc, x, formula, place, plan) {
            Ok(found) => Ok(Some(found)),
            Err(limit) => Err(limit),
        },
        None => Ok(None),
    }
}

/// The other members than the one at a place, as they are planned.
fn planned(
    alloc: Global,
    x: u8,
    formula: &Formula,
    place: usize,
    plan: &Plan,
) -> Result<Formula, Limit>
    requires symbol { x < 32 }
    requires linear { IsLinear x (formula_of formula.now) }
    ensures written { IfOk result (λ G. IsWrittenBy x
        (plan_of (left_of place (formula_of formula.now)) plan.now) (formula_of G)) }
    ensures wide { WideWhere
        (IsWidePlan x (plan_of (left_of place (formula_of formula.now)) plan.now)) result }
{
    match plan {
        Plan::At(point) => left_at(alloc, x, formula, place, point),
        Plan::Guarded(point) => {
            let there = left_at(alloc, x, formula, place, point)?;
            Ok(guarded(alloc, point, there)?)
        }
        Plan::Level(slope, base) => {
            let others = left(alloc, formula, place)?;
            Ok(level(alloc, slope, base, others)?)
        }
    }
}

/// A formula at a test point, with the guard that the slope has its sign; infinity has none.
fn guarded(alloc: Global, point: &TestPoint, there: Formula) -> Result<Formula, NoMemory>
    ensures { IfOk result (λ G. (x : ℕ) (F : tree.Formula) →
        IsFormulaAt x (point_of point.now) F (formula_of there) →
        IsWrittenBy x (plan_at F (point_of point.now)) (formula_of G)) }
{
    match point {
        TestPoint::Infinity => Ok(there),
        TestPoint::Root(slope, _, sign) | TestPoint::Before(slope, _, sign) => {
            let guard = make_atom(alloc, slope, only(*sign))?;
            both(alloc, guard, there)
        }
    }
}

/// The formula as it stands, where slope and base are zero.
fn level(alloc: Global, slope: &Poly, base: &Poly, formula: Formula) -> Result<Formula, NoMemory>
    ensures { IfOk result (λ G. IsLevel slope.now base.now (formula_of formula) (formula_of G)) }
{
    let flat = make_atom(alloc, slope, Signs::Zero)?;
    let zero = make_atom(alloc, base, Signs::Zero)?;
    let mut members = Vec::new(alloc);
    members.push(flat)?;
    members.push(zero)?;
    members.push(formula)?;
    Ok(Formula::And(members))
}

/// The set of one sign.
fn only(sign: Sign) -> Signs
    ensures { result ≡ only sign }
{
    match sign {
        Sign::Minus => Signs::Neg,
        Sign::Zero => Signs::Zero,
        Sign::Plus => Signs::Pos,
    }
}

fn both(alloc: Global, first: Formula, second: Formula) -> Result<Formula, NoMemory>
    ensures { IfOk result (λ F.
        formula_of F ≡ tree.both (formula_of first) (formula_of second)) }
{
    let mut members = Vec::new(alloc);
    members.push(first)?;
    members.push(second)?;
    Ok(Formula::And(members))
}
