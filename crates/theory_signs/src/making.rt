ghost use Rattle.std.specs.Prelude.{◌≡◌, IfOk, MatchOption};
ghost use Rattle.theory_polynomial.specs.Polynomial.{IsPolynomial, coefficient_at, no_powers};
ghost use Rattle.theory_polynomial.specs.PolynomialValue.{Values};
ghost use Rattle.theory_formula.specs.Signs.{has, sign_of_whole};
ghost use Rattle.theory_formula.specs.Formula.{truth_at, sign_at};
ghost use Rattle.theory_formula.specs.SignCondition.{IsConstant, HasSymbol, IsAtomOf, IsCanonicalAtom, decided};
ghost use Rattle.theory_signs.specs.Plain.{formula_of};

use crate::atom::Atom;
use crate::formula::Formula;
use std::alloc::Global;
use theory_formula::Signs;
use theory_meaning::Sign;
use theory_points::NoMemory;
use theory_poly::Poly;

/// The formula that says that the sign of a polynomial is in a set.
pub fn make_atom(alloc: Global, poly: &Poly, signs: Signs) -> Result<Formula, NoMemory>
    ensures written { IfOk result (λ F. IsAtomOf poly.now signs (formula_of F)) }

    // At every point it is true exactly where the set has the sign of the polynomial.
    ensures truth { IfOk result (λ F. (p : Values) →
        truth_at (formula_of F) p ≡ has signs (sign_at poly.now p)) }
{
    match constant_sign(poly) {
        Some(sign) => Ok(decision(signs.has(sign))),
        None => canonical_atom(alloc, poly, signs),
    }
}

/// True or false as a formula.
pub fn decision(truth: bool) -> Formula
    ensures { formula_of result ≡ decided truth }
{
    if truth { Formula::True } else { Formula::False }
}

/// The sign of a polynomial without symbols; None where some symbol occurs.
pub fn constant_sign(poly: &Poly) -> Option<Sign>
    ensures value { MatchOption result (HasSymbol poly.now)
        (λ s. IsConstant poly.now × (s ≡ sign_of_whole (coefficient_at poly.now no_powers))) }
    ensures ordered { IsPolynomial poly.now }
{
    match poly.terms().first() {
        None => Some(Sign::Zero),
        Some(t) => {
            if t.powers == [0; 32] {
                Some(sign_of(t.coefficient))
            } else {
                None
            }
        }
    }
}

fn sign_of(n: i64) -> Sign
    ensures { result ≡ sign_of_whole n }
{
    if n < 0 {
        Sign::Minus
    } else if n == 0 {
        Sign::Zero
    } else {
        Sign::Plus
    }
}

/// The atom of the canonical polynomial, with the mirrored set where the sign is turned.
fn canonical_atom(alloc: Global, poly: &Poly, signs: Signs) -> Result<Formula, NoMemory>
    requires symbol { HasSymbol poly.now }
    requires ordered { IsPolynomial poly.now }
    ensures { IfOk result (λ F. IsCanonicalAtom poly.now signs (formula_of F)) }
{
    let (canonical, turned) = poly.canonical(alloc)?;
    let kept = if turned { signs.mirror() } else { signs };
    Ok(Formula::Atom(Atom::new(canonical, kept)))
}
