ghost use Rattle.std.specs.Prelude.{◌≡◌, ◌<◌, [], ◌∷◌, IfOk};
ghost use Rattle.theory_polynomial.specs.PolynomialValue.{slope_in, base_in};
ghost use Rattle.theory_elimination.specs.Elimination.{IsLinearAtom};
ghost use Rattle.theory_elimination.specs.Substituted.{IsConditionOn, IsLineAt, along_slope};
ghost use Rattle.theory_poly.specs.Answers.{WideWhere};
ghost use Rattle.theory_signs.specs.Plain.{formula_of};
ghost use Rattle.theory_subst.specs.Points.{point_of};
ghost use Rattle.theory_subst.specs.Lines.{IsBySign, IsWideLine};

use crate::test_point::TestPoint;
use std::alloc::Global;
use theory_formula::Signs;
use theory_meaning::Sign;
use theory_points::{Limit, NoMemory};
use theory_poly::Poly;
use theory_signs::{Formula, Formulas, make_atom};

/// The sign condition on a polynomial that holds the symbol, at a test point.
pub fn atom_at(
    alloc: Global,
    x: u8,
    at: &TestPoint,
    poly: &Poly,
    signs: Signs,
) -> Result<Formula, Limit>
    requires symbol { x < 32 }
    requires linear { IsLinearAtom x poly.now signs }
    ensures written { IfOk result (λ F. IsLineAt (point_of at.now)
        (slope_in x poly.now) (base_in x poly.now) signs (formula_of F)) }
    ensures wide { WideWhere
        (IsWideLine (point_of at.now) (slope_in x poly.now) (base_in x poly.now)) result }
{
    let (slope, base) = poly.split_linear(alloc, x)?;
    line_at(alloc, at, &slope, &base, signs)
}

/// The sign condition on a line.
fn line_at(
    alloc: Global,
    at: &TestPoint,
    slope: &Poly,
    base: &Poly,
    signs: Signs,
) -> Result<Formula, Limit>
    ensures written { IfOk result (λ F.
        IsLineAt (point_of at.now) slope.now base.now signs (formula_of F)) }
    ensures wide { WideWhere (IsWideLine (point_of at.now) slope.now base.now) result }
{
    match at {
        TestPoint::Infinity => Ok(by_sign(alloc, slope, signs, base, signs)?),
        TestPoint::Root(a, b, sign) => {
            let there = Poly::cross(alloc, a, base, slope, b)?;
            Ok(make_atom(alloc, &there, along(*sign, signs))?)
        }
        TestPoint::Before(a, b, sign) => {
            let at_root = Poly::cross(alloc, a, base, slope, b)?;
            Ok(by_sign(alloc, &at_root, along(*sign, signs), slope, signs.mirror())?)
        }
    }
}

/// The set where the slope of the test point's line has this sign.
fn along(sign: Sign, signs: Signs) -> Signs
    ensures { result ≡ along_slope sign signs }
{
    match sign {
        Sign::Minus => signs.mirror(),
        Sign::Zero | Sign::Plus => signs,
    }
}

/// The condition by the sign of the first polynomial, and where that is zero by the second.
fn by_sign(
    alloc: Global,
    first: &Poly,
    signs: Signs,
    second: &Poly,
    signs_at_zero: Signs,
) -> Result<Formula, NoMemory>
    ensures { IfOk result (λ F.
        IsBySign first.now signs second.now signs_at_zero (formula_of F)) }
{
    let off_zero = condition(alloc, first, signs.without_zero())?;
    let zero = make_atom(alloc, first, Signs::Zero)?;
    let at_zero = make_atom(alloc, second, signs_at_zero)?;
    let both = Formula::And(pair(alloc, zero, at_zero)?);
    Ok(Formula::Or(pair(alloc, off_zero, both)?))
}

/// The condition on a polynomial, False for a set without signs.
fn condition(alloc: Global, poly: &Poly, signs: Option<Signs>) -> Result<Formula, NoMemory>
    ensures { IfOk result (λ F. IsConditionOn poly.now signs (formula_of F)) }
{
    match signs {
        Some(signs) => make_atom(alloc, poly, signs),
        None => Ok(Formula::False),
    }
}

fn pair(alloc: Global, first: Formula, second: Formula) -> Result<Formulas, NoMemory>
    ensures { IfOk result (λ Fs. Fs.items ≡ first ∷ second ∷ []) }
{
    let mut members = Vec::new(alloc);
    members.push(first)?;
    members.push(second)?;
    Ok(members)
}
