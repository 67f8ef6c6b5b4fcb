ghost use Rattle.std.specs.Prelude.{◌≡◌, ℕ, ◌^◌, ◌<◌, ◌≤◌, ◌⊎◌, unsigned_abs, IfOk, MatchBool};
ghost use Rattle.theory_meaning.specs.Limits.{bound};
ghost use Rattle.theory_polynomial.specs.Polynomial.{Monomial, IsPolynomial, IsPrimitiveOf, IsBeyondDivided, IsWithinLimits, PassesLimit, greatest_of, height_of};
ghost use Rattle.theory_poly.specs.Answers.{WideWhere};
ghost use Rattle.theory_poly.specs.Kept.{IsKept};

use crate::content::primitive;
use crate::poly::Poly;
use crate::term::{Term, WideTerm};
use std::alloc::Global;
use theory_points::{Limit, NoMemory};

/// The greatest absolute value of a coefficient.
const W: u128 = 1 << 58;

/// The polynomial of terms in the fixed order; Wide where they pass a limit.
pub fn judged(alloc: Global, terms: &[WideTerm]) -> Result<Poly, Limit>
    requires { IsPolynomial terms.now }
    ensures value { IfOk result (λ r. r ≡ terms.now) }
    ensures wide { WideWhere (PassesLimit terms.now) result }
{
    if passes_limit(terms) {
        return Err(Limit::Wide);
    }
    match narrowed(alloc, terms) {
        Ok(poly) => Ok(poly),
        Err(_) => Err(Limit::Memory),
    }
}

/// The polynomial of terms divided by their content; Wide where what is left passes a limit.
pub fn judged_primitive(alloc: Global, terms: &[WideTerm]) -> Result<Poly, Limit>
    requires ordered { IsPolynomial terms.now }
    requires small { height_of terms.now < 2 ^ 127 }
    ensures value { IfOk result (IsPrimitiveOf terms.now) }
    ensures wide { WideWhere (IsBeyondDivided terms.now) result }
{
    let least = primitive(alloc, terms)?;
    judged(alloc, &least)
}

/// The polynomial of terms within the limits.
pub fn narrowed(alloc: Global, terms: &[WideTerm]) -> Result<Poly, NoMemory>
    requires { IsKept terms.now }
    ensures { IfOk result (λ r. r ≡ terms.now) }
{
    let mut all = Vec::new(alloc);
    for t in terms {
        all.push(narrow(t))?;
    }
    Ok(Poly::from_kept(all))
}

fn narrow(t: &WideTerm) -> Term
    requires { unsigned_abs t.now.coefficient ≤ bound }
    ensures { result ≡ t.now }
{
    Term {
        coefficient: t.coefficient as i64,
        powers: t.powers,
    }
}

/// Whether there are more than 128 terms, or one with an exponent or coefficient past its limit.
pub fn passes_limit(terms: &[WideTerm]) -> bool
    ensures { MatchBool result (PassesLimit terms.now) (IsWithinLimits terms.now) }
{
    if terms.len() > 128 {
        return true;
    }
    for t in terms {
        if term_passes(t) {
            return true;
        }
    }
    false
}

fn term_passes(t: &WideTerm) -> bool
    ensures { MatchBool result
        ((15 < greatest_of t.now.powers) ⊎ (bound < unsigned_abs t.now.coefficient))
        ((greatest_of t.now.powers ≤ 15) × (unsigned_abs t.now.coefficient ≤ bound)) }
{
    greatest(&t.powers) > 15 || t.coefficient.unsigned_abs() > W
}

fn greatest(powers: &[u8; 32]) -> u8
    ensures { result ≡ greatest_of powers.now }
{
    let mut most = 0;
    for n in powers {
        most = most.max(*n);
    }
    most
}
