ghost use Rattle.std.specs.Prelude.{◌≡◌, ◌≢◌, ℕ, ◌+◌, ◌*◌, ◌^◌, ◌<◌, ◌≤◌, ◌++◌, [], ◌∷◌, ℤ, pos, ◌+ℤ◌, ◌*ℤ◌, unsigned_abs, IfOk, OnOk, if◌then◌else◌};
ghost use Rattle.std.specs.Ordering.{int_eq};
ghost use Rattle.theory_polynomial.specs.Polynomial.{Monomial, monomial, IsPolynomial, scaled, sum_of, height_of};
ghost use Rattle.theory_meaning.specs.Limits.{bound};
ghost use Rattle.theory_poly.specs.Kept.{IsKept, IsGathered};

use crate::term::{Term, WideTerm};
use std::alloc::Global;
use std::cmp::Ordering;
use theory_points::NoMemory;

/// The sum of two polynomials times a whole number each.
pub fn sum_of_multiples(
    alloc: Global,
    m: i64,
    a: &[Term],
    n: i64,
    b: &[Term],
) -> Result<Vec<WideTerm>, NoMemory>
    requires first_factor { unsigned_abs m ≤ bound }
    requires first { IsKept a.now }
    requires second_factor { unsigned_abs n ≤ bound }
    requires second { IsKept b.now }
    ensures { IfOk result
        (λ r. IsGathered (sum_of (scaled m a.now) (scaled n b.now)) (2 ^ 117) r.items) }
{
    let left = multiple(alloc, m, a)?;
    let right = multiple(alloc, n, b)?;
    merged(alloc, &left, &right)
}

/// A polynomial times a whole number, which leaves no term where that is 0.
pub fn multiple(alloc: Global, n: i64, terms: &[Term]) -> Result<Vec<WideTerm>, NoMemory>
    requires factor { unsigned_abs n ≤ bound }
    requires terms { IsKept terms.now }
    ensures { IfOk result (λ r. IsGathered (scaled n terms.now) (2 ^ 116) r.items) }
{
    if n == 0 {
        return Ok(Vec::new(alloc));
    }
    multiplied(alloc, n, terms)
}

/// Each term times a whole number.
pub fn multiplied(alloc: Global, n: i64, terms: &[Term]) -> Result<Vec<WideTerm>, NoMemory>
    requires factor { unsigned_abs n ≤ bound }
    requires terms { height_of terms.now ≤ bound }
    ensures { IfOk result (λ r. r.items ≡ scaled n terms.now) }
{
    let mut all = Vec::new(alloc);
    for t in terms {
        all.push(WideTerm {
            coefficient: product(n, t.coefficient),
            powers: t.powers,
        })?;
    }
    Ok(all)
}

/// The product of two numbers within the bound at 128 bits.
pub fn product(a: i64, b: i64) -> i128
    requires first { unsigned_abs a ≤ bound }
    requires second { unsigned_abs b ≤ bound }
    ensures value { result ≡ a *ℤ b }
    ensures small { unsigned_abs result ≤ 2 ^ 116 }
{
    a as i128 * b as i128
}

/// The sum of two polynomials, merged term by term.
pub fn merged(alloc: Global, a: &[WideTerm], b: &[WideTerm]) -> Result<Vec<WideTerm>, NoMemory>
    requires first { IsPolynomial a.now }
    requires second { IsPolynomial b.now }
    requires small { height_of a.now + height_of b.now < 2 ^ 127 }
    ensures { IfOk result
        (λ r. IsGathered (sum_of a.now b.now) (height_of a.now + height_of b.now) r.items) }
{
    let mut all = Vec::new(alloc);
    let mut i = 0;
    let mut j = 0;
    while i < a.len() && j < b.len() {
        match b[j].powers.cmp(&a[i].powers) {
            Ordering::Less => {
                all.push(a[i])?;
                i += 1;
            }
            Ordering::Equal => {
                push_sum(&mut all, &a[i], &b[j])?;
                i += 1;
                j += 1;
            }
            Ordering::Greater => {
                all.push(b[j])?;
                j += 1;
            }
        }
    }
    all.extend_from_slice(&a[i..])?;
    all.extend_from_slice(&b[j..])?;
    Ok(all)
}

/// Adds the sum of two terms with equal exponents, and nothing where it is 0.
fn push_sum(all: &mut Vec<WideTerm>, t: &WideTerm, u: &WideTerm) -> Result<(), NoMemory>
    requires small { unsigned_abs t.now.coefficient + unsigned_abs u.now.coefficient < 2 ^ 127 }
    ensures { OnOk result
        (all.new.items
        ≡ (if int_eq (t.now.coefficient +ℤ u.now.coefficient) (pos 0) then all.old.items
        else (all.old.items
        ++ monomial (t.now.coefficient +ℤ u.now.coefficient) t.now.powers ∷ []))) }
{
    let coefficient = t.coefficient + u.coefficient;
    if coefficient != 0 {
        all.push(WideTerm {
            coefficient,
            powers: t.powers,
        })?;
    }
    Ok(())
}
