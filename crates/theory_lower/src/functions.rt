ghost use Rattle.std.specs.Prelude.{◌≡◌, ◌≢◌, [], IfOk, MatchBool};
ghost use Rattle.theory_polynomial.specs.Polynomial.{IsPolynomialOf, IsBeyond};
ghost use Rattle.theory_lowering.specs.RationalFunction.{RationalFunction, one, IsFractionOf, IsJoinOf, IsOverBoth, IsOppositeOf, IsProductOf, IsPowerOf, IsQuotientOf, IsOver, opposite_of_quotient};
ghost use Rattle.theory_lowering.specs.LoweringLimits.{IsBeyondFraction, IsWideJoin, IsWideOverBoth, IsWideProduct, IsWidePower, IsWideOver};
ghost use Rattle.theory_poly.specs.Answers.{WideWhere};
ghost use Rattle.theory_poly.specs.Kept.{IsKept, IsKeptQuotient};
ghost use Rattle.theory_lower.specs.Combined.{function_of, signed_sum, Pairs};

use crate::quotients::{added, constant, multiplied, opposite, scaled};
use std::alloc::Global;
use std::marker::Model;
use theory_points::{Limit, NoMemory};
use theory_poly::{Poly, RatPoly};

/// A polynomial with rational coefficients, the top, over a polynomial, the bottom.
#[derive(Drop)]
pub struct RatFunction {
    top: RatPoly,
    bottom: Poly,
}

impl Model for RatFunction {
    ghost use Rattle.theory_lowering.specs.RationalFunction.{RationalFunction};
    ghost use Rattle.theory_lower.specs.Combined.{function_of, IsKeptFunction};

    ghost Value = { RationalFunction };

    ghost view = { λ r. function_of r.top r.bottom };

    ghost invariant = { λ r. IsKeptFunction (function_of r.top r.bottom) };
}

impl RatFunction {
    fn new(top: RatPoly, bottom: Poly) -> RatFunction
        ensures { result ≡ function_of top bottom }
    {
        let kept = top.below() > 0 && bottom.terms().len() <= 128;
        prove!(kept);
        RatFunction { top, bottom }
    }

    /// A quotient over 1.
    pub fn whole(alloc: Global, top: RatPoly) -> Result<RatFunction, NoMemory>
        ensures top { IfOk result (λ r. r.top ≡ top) }
        ensures bottom { IfOk result (λ r. IsPolynomialOf one r.bottom) }
        ensures fits { IfOk result (λ r. ¬ IsBeyond one) }
    {
        let bottom = Poly::constant(alloc, 1)?;
        Ok(RatFunction::new(top, bottom))
    }

    /// The top.
    pub fn top(&self) -> &RatPoly
        ensures value { result.now ≡ self.now.top }
        ensures kept { IsKeptQuotient self.now.top }
    {
        &self.top
    }

    /// The bottom.
    pub fn bottom(&self) -> &Poly
        ensures value { result.now ≡ self.now.bottom }
        ensures kept { IsKept self.now.bottom }
    {
        &self.bottom
    }

    /// The sum, or the difference where that is said; equal bottoms are kept.
    pub fn add(&self, alloc: Global, minus: bool, other: &RatFunction) -> Result<RatFunction, Limit>
        ensures value { IfOk result (IsJoinOf (signed_sum minus) self.now other.now) }
        ensures wide { WideWhere (IsWideJoin (signed_sum minus) self.now other.now) result }
    {
        if *self.bottom() == *other.bottom() {
            let top = added(alloc, minus, self.top(), other.top());
            paired(top, kept(alloc, self.bottom()))
        } else {
            over_both(alloc, minus, self, other)
        }
    }

    /// What is taken from 0.
    pub fn neg(&self, alloc: Global) -> Result<RatFunction, Limit>
        ensures value { IfOk result (IsOppositeOf self.now) }
        ensures wide { WideWhere
            (IsBeyondFraction (opposite_of_quotient self.now.top) self.now.bottom) result }
    {
        let top = opposite(alloc, self.top());
        paired(top, kept(alloc, self.bottom()))
    }

    /// The product of the tops over that of the bottoms.
    pub fn mul(&self, alloc: Global, other: &RatFunction) -> Result<RatFunction, Limit>
        ensures value { IfOk result (IsProductOf self.now other.now) }
        ensures wide { WideWhere (IsWideProduct self.now other.now) result }
    {
        let top = self.top().mul(alloc, other.top());
        paired(top, self.bottom().mul(alloc, other.bottom()))
    }

    /// A power, one factor after the other.
    pub fn power(&self, alloc: Global, exponent: u8) -> Result<RatFunction, Limit>
        ensures value { IfOk result (IsPowerOf self.now exponent) }
        ensures wide { WideWhere (IsWidePower self.now exponent) result }
    {
        let positive = self.top().below() > 0;
        prove!(positive);
        let few = self.bottom().terms().len() <= 128;
        prove!(few);
        let mut all = RatFunction::whole(alloc, constant(alloc, 1, 1)?)?;
        for _ in 0..exponent {
            match all.mul(alloc, self) {
                Ok(next) => all = next,
                Err(limit) => return Err(limit),
            }
        }
        Ok(all)
    }

    /// The quotient, which is 0 over 1 where the top of the divisor is 0.
    pub fn div(&self, alloc: Global, other: &RatFunction) -> Result<RatFunction, Limit>
        ensures value { IfOk result (IsQuotientOf self.now other.now) }
        ensures wide { WideWhere (IsWideOver self.now other.now) result }
    {
        if other.top().top().terms().len() == 0 {
            Ok(RatFunction::whole(alloc, constant(alloc, 0, 1)?)?)
        } else {
            divided(alloc, self, other)
        }
    }
}

/// A sum or difference over the product of the bottoms.
fn over_both(
    alloc: Global,
    minus: bool,
    a: &RatFunction,
    b: &RatFunction,
) -> Result<RatFunction, Limit>
    requires { a.now.bottom ≢ b.now.bottom }
    ensures value { IfOk result (IsOverBoth (signed_sum minus) a.now b.now) }
    ensures wide { WideWhere (IsWideOverBoth (signed_sum minus) a.now b.now) result }
{
    let first = match multiplied(alloc, a.top(), b.bottom()) {
        Ok(first) => first,
        Err(limit) => return Err(limit),
    };
    let second = match multiplied(alloc, b.top(), a.bottom()) {
        Ok(second) => second,
        Err(limit) => return Err(limit),
    };
    let top = added(alloc, minus, &first, &second);
    paired(top, a.bottom().mul(alloc, b.bottom()))
}

/// The quotient by what isn't 0: its top is a whole number times the canonical form.
fn divided(alloc: Global, a: &RatFunction, b: &RatFunction) -> Result<RatFunction, Limit>
    requires { b.now.top.top ≢ [] }
    ensures value { IfOk result (IsOver a.now b.now) }
    ensures wide { WideWhere (IsWideOver a.now b.now) result }
{
    let divisor = b.top().top();
    let (poly, turned) = divisor.canonical(alloc)?;
    let below = b.top().below();
    let scaled = match scaled(alloc, a.top(), turned, below, divisor.content()) {
        Ok(scaled) => scaled,
        Err(limit) => return Err(limit),
    };
    let top = multiplied(alloc, &scaled, b.bottom());
    paired(top, a.bottom().mul(alloc, &poly))
}

/// Both parts; the first fault where one is missing.
fn paired(top: Result<RatPoly, Limit>, bottom: Result<Poly, Limit>) -> Result<RatFunction, Limit>
    ensures { Pairs top bottom result }
{
    match top {
        Ok(top) => match bottom {
            Ok(bottom) => Ok(RatFunction::new(top, bottom)),
            Err(limit) => Err(limit),
        },
        Err(limit) => Err(limit),
    }
}

/// A copy of a bottom, which passes no limit.
fn kept(alloc: Global, bottom: &Poly) -> Result<Poly, Limit>
    ensures value { IfOk result (IsPolynomialOf bottom.now) }
    ensures wide { WideWhere (IsBeyond bottom.now) result }
{
    let known = bottom.terms().len() <= 128;
    prove!(known);
    Ok(bottom.copy(alloc)?)
}
