ghost use Rattle.std.specs.Prelude.{◌≡◌, ℕ, ◌*◌, ◌<◌, ◌≤◌, ◌⊎◌, ℤ, pos, ◌≤ℤ◌, unsigned_abs, IfOk};
ghost use Rattle.theory_meaning.specs.Fraction.{Fraction, den};
ghost use Rattle.theory_meaning.specs.Limits.{bound};
ghost use Rattle.theory_polynomial.specs.Polynomial.{Monomial, scaled, sum_of, degree_in, IsPolynomialOf, IsBeyond};
ghost use Rattle.theory_polynomial.specs.PolynomialValue.{restriction_step, IsWideRestriction};
ghost use Rattle.theory_poly.specs.Answers.{WideWhere};
ghost use Rattle.theory_poly.specs.Kept.{IsKept, IsNextStep, PassesInStep};

use crate::judging::judged;
use crate::merging::{product, sum_of_multiples};
use crate::part::{greatest_exponent, part};
use crate::poly::Poly;
use crate::term::Term;
use std::alloc::Global;
use theory_points::{Frac, Limit};

/// The greatest power of a denominator.
const W: i128 = 1 << 58;

/// The last step: the terms at a value of the symbol, cleared of that value's denominator.
pub fn last_step(alloc: Global, x: u8, value: &Frac, terms: &[Term]) -> Result<Poly, Limit>
    requires symbol { x < 32 }
    requires terms { IsKept terms.now }
    ensures value { IfOk result
        (IsPolynomialOf (restriction_step x value.now terms.now (degree_in x terms.now))) }
    ensures wide { WideWhere (IsWideRestriction x value.now terms.now) result }
{
    let degree = greatest_exponent(x, terms);
    let mut sum = part(alloc, x, degree, terms)?;
    let mut power = 1;
    for i in 0..degree {
        let next = part(alloc, x, degree - (i + 1), terms)?;
        match next_step(alloc, value, &sum, power, &next) {
            Ok((found, raised)) => {
                sum = found;
                power = raised;
            }
            Err(limit) => return Err(limit),
        }
    }
    Ok(sum)
}

/// The step before times the numerator, plus the next part times the next power of the denominator.
fn next_step(
    alloc: Global,
    value: &Frac,
    sum: &Poly,
    power: i64,
    next: &Poly,
) -> Result<(Poly, i64), Limit>
    requires low { pos 0 ≤ℤ power }
    requires high { unsigned_abs power ≤ bound }
    ensures value { IfOk result
        (λ found. IsNextStep value.now sum.now power next.now found.0 found.1) }
    ensures wide { WideWhere (PassesInStep value.now sum.now power next.now) result }
{
    let raised = product(power, value.den());
    if raised > W {
        return Err(Limit::Wide);
    }
    let all = sum_of_multiples(
        alloc,
        value.num(),
        sum.as_slice(),
        raised as i64,
        next.as_slice(),
    )?;
    match judged(alloc, &all) {
        Ok(found) => Ok((found, raised as i64)),
        Err(limit) => Err(limit),
    }
}
