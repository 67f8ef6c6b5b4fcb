ghost use Rattle.std.specs.Prelude.{◌≡◌, ℕ, ◌*◌, ◌^◌, ◌<◌, ◌≤◌, List, ℤ, pos, ◌<ℤ◌, unsigned_abs, IfOk};
ghost use Rattle.theory_meaning.specs.Limits.{bound};
ghost use Rattle.theory_polynomial.specs.Polynomial.{Monomial, IsPolynomial, height_of};
ghost use Rattle.theory_polynomial.specs.RationalPolynomial.{Quotient, IsLowestOf, IsQuotientBeyond, sum_of_quotients, difference_of_quotients, product_of_quotients};
ghost use Rattle.theory_poly.specs.Answers.{WideWhere};
ghost use Rattle.theory_poly.specs.Kept.{IsKept, IsKeptQuotient, quotient_of};

use crate::content::{divided, divisor_of_narrow, divisor_with};
use crate::judging::judged;
use crate::merging::sum_of_multiples;
use crate::poly::Poly;
use crate::product::multiplied_out;
use crate::term::WideTerm;
use std::alloc::Global;
use std::marker::Model;
use theory_points::Limit;

/// The greatest number below.
const W: u128 = 1 << 58;

/// A polynomial over a whole number from 1 to 2^58, in lowest form.
#[derive(Debug, Drop)]
pub struct RatPoly {
    top: Poly,
    below: u64,
}

impl Model for RatPoly {
    ghost use Rattle.theory_polynomial.specs.RationalPolynomial.{Quotient};
    ghost use Rattle.theory_poly.specs.Kept.{IsKeptQuotient, quotient_of};

    ghost Value = { Quotient };

    ghost view = { λ q. quotient_of q.top q.below };

    ghost invariant = { λ q. IsKeptQuotient (quotient_of q.top q.below) };
}

impl RatPoly {
    /// The lowest form of a polynomial over a number from 1 to 2^58, without memory.
    pub fn new(poly: Poly, below: i64) -> RatPoly
        requires low { pos 0 <ℤ below }
        requires high { unsigned_abs below ≤ bound }
        ensures { IsLowestOf (quotient_of poly (unsigned_abs below)) result }
    {
        let divisor = divisor_of_narrow(below as u128, poly.as_slice());
        RatPoly {
            top: poly.divided_by(divisor),
            below: (below as u128 / divisor) as u64,
        }
    }

    /// The polynomial over the number below.
    pub fn top(&self) -> &Poly
        ensures value { result.now ≡ self.now.top }
        ensures kept { IsKeptQuotient self.now }
    {
        &self.top
    }

    /// The number below, from 1.
    pub fn below(&self) -> i64
        ensures value { result ≡ pos self.now.below }
        ensures kept { IsKeptQuotient self.now }
    {
        self.below as i64
    }

    /// The sum; Wide where its lowest form passes a limit.
    pub fn add(&self, alloc: Global, other: &RatPoly) -> Result<RatPoly, Limit>
        ensures value { IfOk result (IsLowestOf (sum_of_quotients self.now other.now)) }
        ensures wide { WideWhere (IsQuotientBeyond (sum_of_quotients self.now other.now)) result }
    {
        let first = self.below();
        let second = other.below();
        let all = sum_of_multiples(
            alloc,
            second,
            self.top().as_slice(),
            first,
            other.top().as_slice(),
        )?;
        lowest(alloc, &all, product_below(first, second))
    }

    /// The difference; Wide where its lowest form passes a limit.
    pub fn sub(&self, alloc: Global, other: &RatPoly) -> Result<RatPoly, Limit>
        ensures value { IfOk result (IsLowestOf (difference_of_quotients self.now other.now)) }
        ensures wide { WideWhere
            (IsQuotientBeyond (difference_of_quotients self.now other.now)) result }
    {
        let first = self.below();
        let second = other.below();
        let all = sum_of_multiples(
            alloc,
            second,
            self.top().as_slice(),
            -first,
            other.top().as_slice(),
        )?;
        lowest(alloc, &all, product_below(first, second))
    }

    /// The product; Wide where its lowest form passes a limit.
    pub fn mul(&self, alloc: Global, other: &RatPoly) -> Result<RatPoly, Limit>
        ensures value { IfOk result (IsLowestOf (product_of_quotients self.now other.now)) }
        ensures wide { WideWhere
            (IsQuotientBeyond (product_of_quotients self.now other.now)) result }
    {
        let all = multiplied_out(alloc, self.top().as_slice(), other.top().as_slice())?;
        lowest(alloc, &all, product_below(self.below(), other.below()))
    }
}

/// The product of two numbers below at 128 bits.
fn product_below(a: i64, b: i64) -> u128
    requires first { pos 0 <ℤ a }
    requires first_small { unsigned_abs a ≤ bound }
    requires second { pos 0 <ℤ b }
    requires second_small { unsigned_abs b ≤ bound }
    ensures value { result ≡ unsigned_abs a * unsigned_abs b }
    ensures positive { 0 < result }
    ensures small { result ≤ 2 ^ 116 }
{
    a as u128 * b as u128
}

/// The lowest form of terms over a number.
fn lowest(alloc: Global, terms: &[WideTerm], below: u128) -> Result<RatPoly, Limit>
    requires ordered { IsPolynomial terms.now }
    requires small { height_of terms.now < 2 ^ 127 }
    requires positive { 0 < below }
    ensures value { IfOk result (IsLowestOf (quotient_of terms.now below)) }
    ensures wide { WideWhere (IsQuotientBeyond (quotient_of terms.now below)) result }
{
    let divisor = divisor_with(below, terms);
    let least = divided(alloc, divisor, terms)?;
    if below / divisor > W {
        return Err(Limit::Wide);
    }
    match judged(alloc, &least) {
        Ok(top) => Ok(RatPoly {
            top,
            below: (below / divisor) as u64,
        }),
        Err(limit) => Err(limit),
    }
}
