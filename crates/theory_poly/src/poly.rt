ghost use Rattle.std.specs.Prelude.{◌≡◌, ◌≢◌, ◌↔◌, ℕ, ◌<◌, ◌≤◌, ◌<ℤ◌, [], pos, negsuc, unsigned_abs, IfOk, if◌then◌else◌};
ghost use Rattle.std.specs.Cmp.{partial_equiv_from_equiv};
ghost use Rattle.std.specs.Hash as fed;
ghost use Rattle.theory_meaning.specs.Limits.{bound};
ghost use Rattle.theory_polynomial.specs.Polynomial.{Monomial, IsPolynomialOf, IsBeyond, IsBeyondDivided, IsPrimitiveOf, IsCanonicalOf, IsContent, IsLinearIn, IsFreeOf, IsSplit, constant_of, symbol_of, sum_of, difference_of, product_of, cross_of, scaled, height_of, degree_in};
ghost use Rattle.theory_polynomial.specs.PolynomialValue.{Values, slope_in, base_in, HasSignAt, HaveSameSign, GivesValue, IsRestriction, IsWideRestriction};
ghost use Rattle.theory_meaning.specs.declared.words.Sign.{Sign};
ghost use Rattle.theory_poly.specs.Answers.{WideWhere};
ghost use Rattle.theory_poly.specs.Hashes.{is_same, hash_of, same_equivalence, same_hashes};
ghost use Rattle.theory_poly.specs.Kept.{IsKept, EachDivided};

use crate::canonical::{signed_form, starts_below};
use crate::content::{content_of_narrow, quotient};
use crate::hashing::hash_of_terms;
use crate::judging::{judged, judged_primitive};
use crate::merging::sum_of_multiples;
use crate::part::{greatest_exponent, part};
use crate::product::{cross_product, multiplied_out};
use crate::restriction::last_step;
use crate::term::{Term, Terms};
use std::alloc::Global;
use std::hash::{Hash, Hasher};
use std::marker::Model;
use theory_points::{Frac, Limit, NoMemory};

/// A polynomial over whole numbers in the symbols 0 to 31, within the limits; it carries its hash.
#[derive(Debug, Drop)]
pub struct Poly {
    terms: Vec<Term>,
    hash: u64,
}

impl Model for Poly {
    ghost use Rattle.std.specs.Prelude.{List};
    ghost use Rattle.theory_polynomial.specs.Polynomial.{Monomial};
    ghost use Rattle.theory_poly.specs.Kept.{IsKeptWith};

    ghost Value = { List Monomial };

    ghost view = { λ p. p.terms.items };

    ghost invariant = { λ p. IsKeptWith p.terms.items p.hash };
}

impl Poly {
    /// A whole number; 0 has no term.
    pub fn constant(alloc: Global, c: i64) -> Result<Poly, NoMemory>
        requires { unsigned_abs c ≤ bound }
        ensures { IfOk result (IsPolynomialOf (constant_of c)) }
    {
        let mut terms = Vec::new(alloc);
        if c != 0 {
            terms.push(Term {
                coefficient: c,
                powers: [0; 32],
            })?;
        }
        Ok(Poly::from_kept(terms))
    }

    /// A symbol, counted from 0.
    pub fn symbol(alloc: Global, x: u8) -> Result<Poly, NoMemory>
        requires { x < 32 }
        ensures { IfOk result (λ r. r ≡ symbol_of x) }
    {
        let mut powers = [0; 32];
        powers[x as usize] = 1;
        let mut terms = Vec::new(alloc);
        terms.push(Term {
            coefficient: 1,
            powers,
        })?;
        Ok(Poly::from_kept(terms))
    }

    /// The terms in the fixed order.
    pub fn terms(&self) -> &Terms
        ensures value { result.now.items ≡ self.now }
        ensures kept { IsKept self.now }
    {
        &self.terms
    }

    /// The same terms as a slice.
    pub(crate) fn as_slice(&self) -> &[Term]
        ensures value { result.now ≡ self.now }
        ensures kept { IsKept self.now }
    {
        self.terms.as_slice()
    }

    /// The polynomial of terms in the fixed order and within the limits.
    pub fn from_kept(terms: Vec<Term>) -> Poly
        requires { IsKept terms.items }
        ensures { result ≡ terms.items }
    {
        let hash = hash_of_terms(terms.as_slice());
        Poly { terms, hash }
    }

    /// Each coefficient divided by a number that divides it, in place.
    pub(crate) fn divided_by(self, divisor: u128) -> Poly
        requires positive { 0 < divisor }
        requires divides { EachDivided divisor self }
        ensures { scaled (pos divisor) result ≡ self }
    {
        let Poly { mut terms, hash: _ } = self;
        divide_all(terms.as_mut_slice(), divisor);
        Poly::from_kept(terms)
    }

    /// The greatest exponent of a symbol, 0 for none.
    pub fn degree_in(&self, x: u8) -> u8
        requires { x < 32 }
        ensures { result ≡ degree_in x self.now }
    {
        greatest_exponent(x, self.as_slice())
    }

    /// The sum; Wide where it passes a limit.
    pub fn add(&self, alloc: Global, other: &Poly) -> Result<Poly, Limit>
        ensures value { IfOk result (IsPolynomialOf (sum_of self.now other.now)) }
        ensures wide { WideWhere (IsBeyond (sum_of self.now other.now)) result }
    {
        let all = sum_of_multiples(alloc, 1, self.as_slice(), 1, other.as_slice())?;
        judged(alloc, &all)
    }

    /// The difference; Wide where it passes a limit.
    pub fn sub(&self, alloc: Global, other: &Poly) -> Result<Poly, Limit>
        ensures value { IfOk result (IsPolynomialOf (difference_of self.now other.now)) }
        ensures wide { WideWhere (IsBeyond (difference_of self.now other.now)) result }
    {
        let all = sum_of_multiples(alloc, 1, self.as_slice(), -1, other.as_slice())?;
        judged(alloc, &all)
    }

    /// The product; Wide where it passes a limit, however many terms there are before they cancel.
    pub fn mul(&self, alloc: Global, other: &Poly) -> Result<Poly, Limit>
        ensures value { IfOk result (IsPolynomialOf (product_of self.now other.now)) }
        ensures wide { WideWhere (IsBeyond (product_of self.now other.now)) result }
    {
        let all = multiplied_out(alloc, self.as_slice(), other.as_slice())?;
        judged(alloc, &all)
    }

    /// `a * b2 - a2 * b` divided by its content; Wide where what is left passes a limit.
    pub fn cross(alloc: Global, a: &Poly, b2: &Poly, a2: &Poly, b: &Poly) -> Result<Poly, Limit>
        ensures value { IfOk result (IsPrimitiveOf (cross_of a.now b2.now a2.now b.now)) }
        ensures wide { WideWhere (IsBeyondDivided (cross_of a.now b2.now a2.now b.now)) result }

        // At every point it has the sign of the difference of the products.
        ensures sign { IfOk result (λ r. HaveSameSign r (cross_of a.now b2.now a2.now b.now)) }
    {
        let all = cross_product(
            alloc,
            a.as_slice(),
            b2.as_slice(),
            a2.as_slice(),
            b.as_slice(),
        )?;
        judged_primitive(alloc, &all)
    }

    /// Content 1 and a positive first coefficient, and whether the sign was turned for that.
    pub fn canonical(&self, alloc: Global) -> Result<(Poly, bool), NoMemory>
        requires { self.now ≢ [] }
        ensures value { IfOk result (λ found. IsCanonicalOf self.now found.1 found.0) }

        // The sign is kept where it was not turned, and else turned at every point.
        ensures sign { IfOk result (λ found. (p : Values) (s : Sign) →
            HasSignAt p found.0 s ↔
            HasSignAt p (scaled (if found.1 then negsuc 0 else pos 1) self.now) s) }
    {
        let turned = starts_below(self.as_slice());
        let poly = signed_form(alloc, turned, self.as_slice())?;
        Ok((poly, turned))
    }

    /// The greatest common divisor of the coefficients, from 1 to 2^58.
    pub fn content(&self) -> i64
        requires { self.now ≢ [] }
        ensures value { IsContent self.now (unsigned_abs result) }
        ensures positive { pos 0 <ℤ result }
        ensures small { unsigned_abs result ≤ bound }
    {
        content_of_narrow(self.as_slice()) as i64
    }

    /// Slope and base, where the exponents of the symbol are at most 1.
    pub fn split_linear(&self, alloc: Global, x: u8) -> Result<(Poly, Poly), NoMemory>
        requires symbol { x < 32 }
        requires linear { IsLinearIn x self.now }
        ensures parts { IfOk result (λ found.
            (found.0 ≡ slope_in x self.now) × (found.1 ≡ base_in x self.now)) }

        // The polynomial is slope times the symbol, plus base; neither has the symbol.
        ensures split { IfOk result (λ found. IsSplit x self.now found.0 found.1) }
    {
        let slope = part(alloc, x, 1, self.as_slice())?;
        let base = part(alloc, x, 0, self.as_slice())?;
        Ok((slope, base))
    }

    /// A polynomial without the symbol, with the same sign at every point that gives it this value;
    /// Wide where a step on the way passes a limit, before the division by the content.
    pub fn restrict(&self, alloc: Global, x: u8, value: &Frac) -> Result<Poly, Limit>
        requires { x < 32 }
        ensures written { IfOk result (IsRestriction x value.now self.now) }
        ensures free { IfOk result (IsFreeOf x) }
        ensures wide { WideWhere (IsWideRestriction x value.now self.now) result }

        // At every point with that value it has the sign of the polynomial.
        ensures sign { IfOk result (λ r. (p : Values) (s : Sign) → GivesValue x value.now p →
            HasSignAt p r s ↔ HasSignAt p self.now s) }
    {
        let last = match last_step(alloc, x, value, self.as_slice()) {
            Ok(last) => last,
            Err(limit) => return Err(limit),
        };
        let least = signed_form(alloc, false, last.as_slice())?;
        Ok(least)
    }

    /// An equal value.
    pub fn copy(&self, alloc: Global) -> Result<Poly, NoMemory>
        ensures { IfOk result (λ p. p ≡ self.now) }
    {
        let terms = Vec::from_slice(alloc, self.as_slice())?;
        let hash = self.hash;
        Ok(Poly { terms, hash })
    }
}

impl PartialEq for Poly {
    ghost eq = { is_same };

    ghost laws = { partial_equiv_from_equiv same_equivalence };

    // The hashes tell most others apart before a term is read.
    fn eq(&self, other: &Poly) -> bool {
        self.hash == other.hash && self.terms == other.terms
    }
}

impl Eq for Poly {
    ghost laws = { same_equivalence };
}

impl Hash for Poly {
    ghost hash_input = { λ P. fed.u64 (hash_of P) };

    ghost respects_eq = { same_hashes };

    fn hash<H: Hasher>(&self, state: &mut H) {
        state.write_u64(self.hash);
    }
}

fn divide_all(terms: &mut [Term], divisor: u128)
    requires positive { 0 < divisor }
    requires divides { EachDivided divisor terms.old }
    requires small { height_of terms.old ≤ bound }
    ensures { scaled (pos divisor) terms.new ≡ terms.old }
{
    for t in terms.iter_mut() {
        t.coefficient = quotient(t.coefficient as i128, divisor) as i64;
    }
}
