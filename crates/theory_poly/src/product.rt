ghost use Rattle.std.specs.Prelude.{◌≡◌, ℕ, ◌+◌, ◌*◌, ◌^◌, ◌<◌, ◌≤◌, ◌++◌, length, ℤ, negsuc, ◌*ℤ◌, unsigned_abs, IfOk};
ghost use Rattle.theory_meaning.specs.Limits.{bound};
ghost use Rattle.theory_polynomial.specs.Polynomial.{Monomial, IsTerm, scaled, product_of, product_of_two, multiple_of, powers_of_product, greatest_of, greatest_exponent_of, height_of, cross_of};
ghost use Rattle.theory_poly.specs.Kept.{IsKept, IsKeptTerm, IsGathered};

use crate::merging::{merged, product};
use crate::term::{Term, WideTerm};
use std::alloc::Global;
use theory_points::NoMemory;

/// The difference of two products.
pub fn cross_product(
    alloc: Global,
    a: &[Term],
    b2: &[Term],
    a2: &[Term],
    b: &[Term],
) -> Result<Vec<WideTerm>, NoMemory>
    requires slope { IsKept a.now }
    requires second_base { IsKept b2.now }
    requires second_slope { IsKept a2.now }
    requires base { IsKept b.now }
    ensures { IfOk result (λ r. IsGathered (cross_of a.now b2.now a2.now b.now) (2 ^ 124) r.items) }
{
    let turned = negated(alloc, a2)?;
    let left = multiplied_out(alloc, a, b2)?;
    let right = multiplied_out(alloc, &turned, b)?;
    merged(alloc, &left, &right)
}

/// The same terms with the other sign.
fn negated(alloc: Global, terms: &[Term]) -> Result<Vec<Term>, NoMemory>
    requires { IsKept terms.now }
    ensures { IfOk result (λ r. r.items ≡ scaled (negsuc 0) terms.now) }
{
    let mut all = Vec::new(alloc);
    for t in terms {
        all.push(negative(t))?;
    }
    Ok(all)
}

fn negative(t: &Term) -> Term
    requires { unsigned_abs t.now.coefficient ≤ bound }
    ensures { result
        ≡ record { coefficient = negsuc 0 *ℤ t.now.coefficient; powers = t.now.powers } }
{
    Term {
        coefficient: -t.coefficient,
        powers: t.powers,
    }
}

/// The product of two polynomials, by the products of each half of the first.
pub fn multiplied_out(alloc: Global, a: &[Term], b: &[Term]) -> Result<Vec<WideTerm>, NoMemory>
    requires first { IsKept a.now }
    requires second { IsKept b.now }
    ensures { IfOk result
        (λ r. IsGathered (product_of a.now b.now) (length a.now * 2 ^ 116) r.items) }
{
    if a.len() == 0 {
        return Ok(Vec::new(alloc));
    }
    if a.len() == 1 {
        return row(alloc, &a[0], b);
    }
    let half = a.len() / 2;
    let left = multiplied_out(alloc, &a[..half], b)?;
    let right = multiplied_out(alloc, &a[half..], b)?;
    merged(alloc, &left, &right)
}

/// One term times each of the others.
fn row(alloc: Global, t: &Term, terms: &[Term]) -> Result<Vec<WideTerm>, NoMemory>
    requires term { IsKeptTerm t.now }
    requires terms { IsKept terms.now }
    ensures { IfOk result (λ r. r.items ≡ multiple_of t.now terms.now) }
{
    let mut all = Vec::new(alloc);
    for u in terms {
        all.push(product_of_terms(t, u))?;
    }
    Ok(all)
}

fn product_of_terms(t: &Term, u: &Term) -> WideTerm
    requires first { IsKeptTerm t.now }
    requires second { IsKeptTerm u.now }
    ensures { result ≡ product_of_two t.now u.now }
{
    WideTerm {
        coefficient: product(t.coefficient, u.coefficient),
        powers: sum_of_powers(&t.powers, &u.powers),
    }
}

/// The sum of the exponents, place by place.
fn sum_of_powers(a: &[u8; 32], b: &[u8; 32]) -> [u8; 32]
    requires first { greatest_of a.now ≤ 15 }
    requires second { greatest_of b.now ≤ 15 }
    ensures { result ≡ powers_of_product a.now b.now }
{
    let mut sums = [0; 32];
    for k in 0..32 {
        sums[k] = a[k] + b[k];
    }
    sums
}
