ghost use Rattle.std.specs.Prelude.{◌≡◌, ◌<◌, IfOk, false, length, map};
ghost use Rattle.theory_formula.specs.Formula as tree;
ghost use Rattle.theory_elimination.specs.TestPoint.{is_constant};
ghost use Rattle.theory_elimination.specs.Branches as written;
ghost use Rattle.theory_elimination.specs.Elimination.{IsLinear};
ghost use Rattle.theory_signs.specs.Plain.{formula_of};
ghost use Rattle.theory_subst.specs.Plans.{plan_of, plans_of, ArePlansOf};

use crate::slope::sign_of_slope;
use crate::test_point::{TestPoint, TestPoints, test_points};
use crate::top_equation::top_equation;
use std::alloc::Global;
use theory_meaning::Sign;
use theory_points::NoMemory;
use theory_poly::Poly;
use theory_signs::Formula;

/// How a branch is written for a formula.
#[derive(Drop)]
pub enum Plan {
    /// At the test point.
    At(TestPoint),
    /// The same, with the guard that its slope has its sign.
    Guarded(TestPoint),
    /// Slope and base are zero, and the formula as it stands.
    Level(Poly, Poly),
}

/// How the branches of a formula in a symbol are written, in their order.
#[derive(Drop)]
pub enum Plans {
    /// At each test point of the formula, with its guard.
    AtPoints(TestPoints),
    /// By the equation at this place, from 0, for the other members.
    ByEquation(usize, Vec<Plan>),
}

impl Plans {
    /// How many branches there are.
    pub fn len(&self) -> usize
        ensures { (F : tree.Formula) → result ≡ length (plans_of F self.now) }
    {
        match self {
            Plans::AtPoints(points) => points.len(),
            Plans::ByEquation(_, roots) => roots.len(),
        }
    }
}

/// The plans by an equation of the top level, or else by the test points; none takes a product.
pub fn branch_plans(alloc: Global, x: u8, formula: &Formula) -> Result<Plans, NoMemory>
    requires symbol { x < 32 }
    requires linear { IsLinear x (formula_of formula.now) }
    ensures written { IfOk result (ArePlansOf x (formula_of formula.now)) }
{
    match top_equation(alloc, x, formula)? {
        Some(equation) => {
            let roots = root_plans(alloc, equation.slope, equation.base)?;
            Ok(Plans::ByEquation(equation.place, roots))
        }
        None => Ok(Plans::AtPoints(test_points(alloc, x, formula)?)),
    }
}

/// The one root where the sign of the slope is known, and else the roots by sign, and level.
fn root_plans(alloc: Global, slope: Poly, base: Poly) -> Result<Vec<Plan>, NoMemory>
    ensures { IfOk result (λ roots. (F : tree.Formula) →
        map (plan_of F) roots.items ≡ written.root_plans (is_constant slope) slope base F) }
{
    match sign_of_slope(&slope) {
        Some(sign) => {
            let mut roots = Vec::new(alloc);
            roots.push(Plan::At(TestPoint::Root(slope, base, sign)))?;
            Ok(roots)
        }
        None => root_plans_by_sign(alloc, slope, base),
    }
}

/// At the root for a positive slope, a negative one, and level.
fn root_plans_by_sign(alloc: Global, slope: Poly, base: Poly) -> Result<Vec<Plan>, NoMemory>
    ensures { IfOk result (λ roots. (F : tree.Formula) →
        map (plan_of F) roots.items ≡ written.root_plans false slope base F) }
{
    let plus = TestPoint::Root(slope.copy(alloc)?, base.copy(alloc)?, Sign::Plus);
    let minus = TestPoint::Root(slope.copy(alloc)?, base.copy(alloc)?, Sign::Minus);
    let mut roots = Vec::new(alloc);
    roots.push(Plan::Guarded(plus))?;
    roots.push(Plan::Guarded(minus))?;
    roots.push(Plan::Level(slope, base))?;
    Ok(roots)
}
