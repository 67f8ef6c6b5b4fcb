ghost use Rattle.std.specs.Prelude.{◌≡◌, ◌≢◌, ◌<◌, ◌≤◌, ◌<ℤ◌, length, pos, neg_ℤ, unsigned_abs, IfOk, OnOk, if◌then◌else◌};
ghost use Rattle.theory_meaning.specs.Limits.{bound};
ghost use Rattle.theory_polynomial.specs.Polynomial.{IsPolynomial, constant_of, symbol_of};
ghost use Rattle.theory_polynomial.specs.RationalPolynomial.{Quotient, IsLowestOf, IsQuotientBeyond, QuotientPasses, product_of_quotients};
ghost use Rattle.theory_lowering.specs.RationalFunction.{over, times, opposite_of_quotient, scale_of};
ghost use Rattle.theory_lowering.specs.Lowered.{place_of};
ghost use Rattle.theory_poly.specs.Answers.{WideWhere};
ghost use Rattle.theory_lower.specs.Combined.{signed_sum};

use std::alloc::Global;
use theory_points::{Limit, Name, NoMemory};
use theory_poly::{Poly, RatPoly};

/// A number over another as a polynomial.
pub fn constant(alloc: Global, top: i64, below: i64) -> Result<RatPoly, NoMemory>
    requires top { unsigned_abs top ≤ bound }
    requires low { pos 0 <ℤ below }
    requires high { unsigned_abs below ≤ bound }
    ensures value { IfOk result (IsLowestOf (over (constant_of top) (unsigned_abs below))) }
    ensures fits { OnOk result (¬ IsQuotientBeyond (over (constant_of top) (unsigned_abs below))) }
{
    let poly = Poly::constant(alloc, top)?;
    Ok(lowest(poly, below))
}

/// The symbol of a listed name.
pub fn symbol(alloc: Global, names: &[Name], name: &Name) -> Result<RatPoly, NoMemory>
    requires few { length names.now ≤ 32 }
    requires listed { place_of name.now names.now < length names.now }
    ensures value { IfOk result (IsLowestOf (over (symbol_of (place_of name.now names.now)) 1)) }
    ensures fits { OnOk result
        (¬ IsQuotientBeyond (over (symbol_of (place_of name.now names.now)) 1)) }
{
    let poly = Poly::symbol(alloc, place(names, name) as u8)?;
    Ok(lowest(poly, 1))
}

/// The place of a name, and the length of the list where it isn't there.
pub fn place(names: &[Name], name: &Name) -> usize
    ensures { result ≡ place_of name.now names.now }
{
    for i in 0..names.len() {
        if names[i].is_same(name) {
            return i;
        }
    }
    names.len()
}

/// The sum, or the difference where that is said.
pub fn added(alloc: Global, minus: bool, a: &RatPoly, b: &RatPoly) -> Result<RatPoly, Limit>
    ensures value { IfOk result (IsLowestOf (signed_sum minus a.now b.now)) }
    ensures wide { WideWhere (IsQuotientBeyond (signed_sum minus a.now b.now)) result }
{
    if minus {
        a.sub(alloc, b)
    } else {
        a.add(alloc, b)
    }
}

/// What is taken from 0.
pub fn opposite(alloc: Global, of: &RatPoly) -> Result<RatPoly, Limit>
    ensures value { IfOk result (IsLowestOf (opposite_of_quotient of.now)) }
    ensures wide { WideWhere (IsQuotientBeyond (opposite_of_quotient of.now)) result }
{
    let zero = constant(alloc, 0, 1)?;
    zero.sub(alloc, of)
}

/// The product with a polynomial.
pub fn multiplied(alloc: Global, q: &RatPoly, by: &Poly) -> Result<RatPoly, Limit>
    ensures value { IfOk result (IsLowestOf (times q.now by.now)) }
    ensures wide { WideWhere (IsQuotientBeyond (times q.now by.now)) result }
{
    let factor = lowest(by.copy(alloc)?, 1);
    q.mul(alloc, &factor)
}

/// The product with a whole number over another, with its sign turned where that is said.
pub fn scaled(
    alloc: Global,
    q: &RatPoly,
    turned: bool,
    top: i64,
    below: i64,
) -> Result<RatPoly, Limit>
    requires top_low { pos 0 <ℤ top }
    requires top_high { unsigned_abs top ≤ bound }
    requires low { pos 0 <ℤ below }
    requires high { unsigned_abs below ≤ bound }
    ensures value { IfOk result (IsLowestOf (product_of_quotients q.now
        (scale_of turned (unsigned_abs top) (unsigned_abs below)))) }
    ensures wide { WideWhere (IsQuotientBeyond (product_of_quotients q.now
        (scale_of turned (unsigned_abs top) (unsigned_abs below)))) result }
{
    let positive = q.below() > 0;
    prove!(positive);
    let scale = constant(alloc, with_sign(turned, top), below)?;
    q.mul(alloc, &scale)
}

/// A positive number, with its sign turned where that is said.
fn with_sign(turned: bool, n: i64) -> i64
    requires low { pos 0 <ℤ n }
    requires high { unsigned_abs n ≤ bound }
    ensures value { result
        ≡ (if turned then neg_ℤ (pos (unsigned_abs n)) else pos (unsigned_abs n)) }
    ensures nonzero { result ≢ pos 0 }
    ensures small { unsigned_abs result ≤ bound }
{
    if turned { -n } else { n }
}

/// The lowest form of a polynomial over a number, which passes no limit.
fn lowest(poly: Poly, below: i64) -> RatPoly
    requires low { pos 0 <ℤ below }
    requires high { unsigned_abs below ≤ bound }
    ensures value { IsLowestOf (over poly (unsigned_abs below)) result }
    ensures fits { ¬ QuotientPasses result }
    ensures ordered { IsPolynomial poly }
{
    let form = RatPoly::new(poly, below);
    let positive = form.below() > 0;
    prove!(positive);
    form
}
