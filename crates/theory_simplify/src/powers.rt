ghost use Rattle.std.specs.Prelude.{◌≡◌, ℕ, ◌<◌, ◌≤◌, length, map, slice_index, IfOk};
ghost use Rattle.theory_polynomial.specs.Polynomial.{monomial, powers_of_product, IsCanonical};
ghost use Rattle.theory_signed.specs.CommonPowers.{least_powers, common_powers, powers_less, without_powers, with_powers, odd_part, all_but};

use crate::symbols::odd_part;
use std::alloc::Global;
use theory_points::NoMemory;
use theory_poly::{Poly, Term};

/// The least exponent of each symbol over all terms.
#[tactic(auto, using(crate::proofs::PowerLemmas::least_of_all))]
pub fn common_powers(terms: &[Term]) -> [u8; 32]
    requires { 0 < length terms.now }
    ensures { result ≡ common_powers terms.now }
{
    let mut common = terms[0].powers;
    for term in terms {
        common = least_powers(&common, &term.powers);
    }
    common
}

fn least_powers(first: &[u8; 32], second: &[u8; 32]) -> [u8; 32]
    ensures { result ≡ least_powers first.now second.now }
{
    let mut least = [0; 32];
    for x in 0..32 {
        least[x] = first[x].min(second[x]);
    }
    least
}

/// 1 for each odd exponent, and 0 for each even one.
pub fn odd_parts(powers: &[u8; 32]) -> [u8; 32]
    ensures { result ≡ map odd_part powers.now }
{
    let mut odd = [0; 32];
    for x in 0..32 {
        odd[x] = odd_part(powers[x]);
    }
    odd
}

/// The exponents, with 0 for the symbol.
#[tactic(auto, using(crate::proofs::PowerLemmas::all_but_is_set))]
pub fn all_but(x: u8, powers: &[u8; 32]) -> [u8; 32]
    requires { x < 32 }
    ensures { result ≡ all_but x powers.now }
{
    let mut others = *powers;
    others[x as usize] = 0;
    others
}

/// A polynomial divided by its common powers, times those of them that are kept.
pub fn with_kept_powers(
    alloc: Global,
    poly: &Poly,
    common: &[u8; 32],
    kept: &[u8; 32],
) -> Result<Poly, NoMemory>
    requires canonical { IsCanonical poly.now }
    requires common { common.now ≡ common_powers poly.now }
    requires kept { (x : ℕ) → slice_index kept.now x ≤ slice_index common.now x }
    ensures value { IfOk result
        (λ Q. Q ≡ with_powers kept.now (without_powers common.now poly.now)) }
    ensures canonical { IfOk result (λ Q. IsCanonical Q) }
{
    let mut terms = Vec::new(alloc);
    for term in poly.terms() {
        terms.push(with_kept(term, common, kept))?;
    }
    Ok(Poly::from_kept(terms))
}

fn with_kept(term: &Term, common: &[u8; 32], kept: &[u8; 32]) -> Term
    requires common { (x : ℕ) → slice_index common.now x ≤ slice_index term.now.powers x }
    requires kept { (x : ℕ) → slice_index kept.now x ≤ slice_index common.now x }
    ensures { result ≡ monomial term.now.coefficient
        (powers_of_product kept.now (powers_less term.now.powers common.now)) }
{
    let powers = kept_powers(&term.powers, common, kept);
    Term {
        coefficient: term.coefficient,
        powers,
    }
}

/// Exponents less the common ones, and then those that are kept.
fn kept_powers(powers: &[u8; 32], common: &[u8; 32], kept: &[u8; 32]) -> [u8; 32]
    requires common { (x : ℕ) → slice_index common.now x ≤ slice_index powers.now x }
    requires kept { (x : ℕ) → slice_index kept.now x ≤ slice_index common.now x }
    ensures { result ≡ powers_of_product kept.now (powers_less powers.now common.now) }
{
    let mut left = [0; 32];
    for x in 0..32 {
        left[x] = kept[x] + (powers[x] - common[x]);
    }
    left
}
