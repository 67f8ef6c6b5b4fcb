ghost use Rattle.std.specs.Prelude.{◌≡◌, ◌<◌, IfOk};
ghost use Rattle.theory_elimination.specs.TestPoint as written;
ghost use Rattle.theory_elimination.specs.Elimination.{IsLinear};
ghost use Rattle.theory_signs.specs.Plain.{formula_of};
ghost use Rattle.theory_subst.specs.Points.{points_of};

use crate::ends::add_ends;
use std::alloc::Global;
use theory_meaning::Sign;
use theory_points::NoMemory;
use theory_poly::Poly;
use theory_signs::Formula;

/// Where a symbol is put: beyond every root, at the root of a line, or just before it.
#[derive(Drop)]
pub enum TestPoint {
    Infinity,
    /// The slope and the base of the line, and the sign of the slope.
    Root(Poly, Poly, Sign),
    /// The same.
    Before(Poly, Poly, Sign),
}

/// A list of test points.
pub type TestPoints = Vec<TestPoint>;

/// Infinity, and then the upper ends of the atoms in reading order, each but once.
pub fn test_points(alloc: Global, x: u8, formula: &Formula) -> Result<TestPoints, NoMemory>
    requires symbol { x < 32 }
    requires linear { IsLinear x (formula_of formula.now) }
    ensures { IfOk result (λ points.
        points_of points.items ≡ written.test_points x (formula_of formula.now)) }
{
    let mut points = Vec::new(alloc);
    points.push(TestPoint::Infinity)?;
    add_ends(alloc, x, formula, &mut points)?;
    Ok(points)
}
