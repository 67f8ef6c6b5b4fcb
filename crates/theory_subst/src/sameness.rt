ghost use Rattle.std.specs.Prelude.{◌≡◌, ◌&&◌};
ghost use Rattle.std.specs.Ordering.{int_eq};
ghost use Rattle.std.specs.Str.{bytes_eq};
ghost use Rattle.std.specs.List.{list_any};
ghost use Rattle.theory_elimination.specs.SameFormula.{is_same_poly};
ghost use Rattle.theory_elimination.specs.TestPoint.{is_same_point, is_same_sign};
ghost use Rattle.theory_subst.specs.Points.{point_of, points_of};

use crate::test_point::TestPoint;
use theory_meaning::Sign;
use theory_poly::{Poly, Term};

/// Whether the same test point stands among the points.
pub fn is_among(points: &[TestPoint], point: &TestPoint) -> bool
    ensures { result ≡ list_any (is_same_point (point_of point.now)) (points_of points.now) }
{
    for other in points {
        if is_same_point(point, other) {
            return true;
        }
    }
    false
}

fn is_same_point(a: &TestPoint, b: &TestPoint) -> bool
    ensures { result ≡ is_same_point (point_of a.now) (point_of b.now) }
{
    match (a, b) {
        (TestPoint::Infinity, TestPoint::Infinity) => true,
        (TestPoint::Root(slope, base, sign), TestPoint::Root(slope2, base2, sign2)) => {
            is_same_poly(slope, slope2) && is_same_poly(base, base2) && is_same_sign(*sign, *sign2)
        }
        (TestPoint::Before(slope, base, sign), TestPoint::Before(slope2, base2, sign2)) => {
            is_same_poly(slope, slope2) && is_same_poly(base, base2) && is_same_sign(*sign, *sign2)
        }
        _ => false,
    }
}

fn is_same_sign(a: Sign, b: Sign) -> bool
    ensures { result ≡ is_same_sign a b }
{
    a == b
}

fn is_same_poly(a: &Poly, b: &Poly) -> bool
    ensures { result ≡ is_same_poly a.now b.now }
{
    are_same_terms(a.terms(), b.terms())
}

fn are_same_terms(a: &[Term], b: &[Term]) -> bool
    ensures { result ≡ is_same_poly a.now b.now }
{
    if a.len() != b.len() {
        return false;
    }
    for (k, t) in a.iter().enumerate() {
        if !is_same_term(t, &b[k]) {
            return false;
        }
    }
    true
}

fn is_same_term(t: &Term, u: &Term) -> bool
    ensures { result
        ≡ (int_eq t.now.coefficient u.now.coefficient && bytes_eq t.now.powers u.now.powers) }
{
    t.coefficient == u.coefficient && t.powers == u.powers
}
