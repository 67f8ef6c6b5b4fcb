ghost use Rattle.std.specs.Prelude.{◌≡◌, ◌≢◌, ℕ, ◌^◌, ◌<◌, ◌≤◌, [], ℤ, pos, ◌*ℤ◌, unsigned_abs, IfOk};
ghost use Rattle.std.specs.Int.{IsGcd};
ghost use Prim.Native.Nat.{◌∣◌};
ghost use Rattle.theory_polynomial.specs.Polynomial.{IsPolynomial, IsContent, scaled, height_of};
ghost use Rattle.theory_meaning.specs.Limits.{bound};
ghost use Rattle.theory_poly.specs.Kept.{IsKept, EachDivided, IsGreatestDivisor, IsGreatestWith, IsPrimitiveForm};

use crate::term::{Term, WideTerm};
use std::alloc::Global;
use theory_points::NoMemory;

/// Each term divided by the content of all.
pub fn primitive(alloc: Global, terms: &[WideTerm]) -> Result<Vec<WideTerm>, NoMemory>
    requires ordered { IsPolynomial terms.now }
    requires small { height_of terms.now < 2 ^ 127 }
    ensures { IfOk result (λ r. IsPrimitiveForm terms.now r.items) }
{
    let content = content_of(terms);
    divided(alloc, content, terms)
}

/// The greatest common divisor of the coefficients, 1 where there is none.
pub fn content_of(terms: &[WideTerm]) -> u128
    requires { IsPolynomial terms.now }
    ensures { IsContent terms.now result }
{
    let common = divisor_of_all(terms);
    if common == 0 { 1 } else { common }
}

fn divisor_of_all(terms: &[WideTerm]) -> u128
    requires { IsPolynomial terms.now }
    ensures { IsGreatestDivisor terms.now result }
{
    let mut common = 0;
    for t in terms {
        common = common_divisor(common, t.coefficient.unsigned_abs());
    }
    common
}

/// The greatest common divisor of a number and the coefficients.
pub fn divisor_with(start: u128, terms: &[WideTerm]) -> u128
    requires positive { 0 < start }
    requires terms { IsPolynomial terms.now }
    ensures value { IsGreatestWith start terms.now result }
    ensures positive { 0 < result }
{
    let mut common = start;
    for t in terms {
        common = common_divisor(common, t.coefficient.unsigned_abs());
    }
    common
}

/// The same for terms within the limits.
pub fn divisor_of_narrow(start: u128, terms: &[Term]) -> u128
    requires positive { 0 < start }
    requires terms { IsPolynomial terms.now }
    ensures value { IsGreatestWith start terms.now result }
    ensures positive { 0 < result }
{
    let mut common = start;
    for t in terms {
        common = common_divisor(common, t.coefficient.unsigned_abs() as u128);
    }
    common
}

/// The content of some terms within the limits.
pub fn content_of_narrow(terms: &[Term]) -> u64
    requires some { terms.now ≢ [] }
    requires kept { IsKept terms.now }
    ensures value { IsContent terms.now result }
    ensures small { result ≤ bound }
{
    let first = terms[0].coefficient.unsigned_abs();
    divisor_of_narrow(first as u128, terms) as u64
}

/// The greatest common divisor by Euclid's algorithm.
pub fn common_divisor(a: u128, b: u128) -> u128
    requires { 0 < b }
    ensures { IsGcd a b result }
{
    let mut x = a;
    let mut y = b;
    while y != 0 {
        let rest = x % y;
        x = y;
        y = rest;
    }
    x
}

pub fn divided(alloc: Global, divisor: u128, terms: &[WideTerm]) -> Result<Vec<WideTerm>, NoMemory>
    requires positive { 0 < divisor }
    requires divides { EachDivided divisor terms.now }
    requires small { height_of terms.now < 2 ^ 127 }
    ensures { IfOk result (λ r. scaled (pos divisor) r.items ≡ terms.now) }
{
    let mut all = Vec::new(alloc);
    for t in terms {
        all.push(WideTerm {
            coefficient: quotient(t.coefficient, divisor),
            powers: t.powers,
        })?;
    }
    Ok(all)
}

/// The exact quotient of a coefficient.
pub fn quotient(coefficient: i128, divisor: u128) -> i128
    requires positive { 0 < divisor }
    requires divides { divisor ∣ unsigned_abs coefficient }
    requires small { unsigned_abs coefficient < 2 ^ 127 }
    ensures { pos divisor *ℤ result ≡ coefficient }
{
    let size = (coefficient.unsigned_abs() / divisor) as i128;
    if coefficient < 0 { -size } else { size }
}
