ghost use Rattle.std.specs.Prelude.{◌≡◌, ℕ, ◌*◌, ◌^◌, ◌<◌, ◌≤◌, ℤ, pos, ◌*ℤ◌, unsigned_abs, MatchOption, IfSome};
ghost use Rattle.std.specs.Int.{IsGcd};
ghost use Rattle.std.specs.Ordering.{MatchOrdering};
ghost use Rattle.theory_meaning.specs.Fraction.{Fraction, den, whole, cross, IsSame, IsBelow, HasSign, opposite_of, sum_of, difference_of, product_of};
ghost use Rattle.theory_meaning.specs.Limits.{bound, IsWide};
ghost use Rattle.theory_points.specs.Parts.{AreCoprime, AreLowest, HasBoundedParts, signed, IsKept, IsQuotient, IsWideQuotient};

use std::cmp::Ordering;
use std::marker::Model;
use theory_meaning::Sign;

/// The greatest absolute value of both parts of a fraction.
pub const W: u64 = 1 << 58;

/// A fraction in lowest terms with a positive denominator, both parts within the bound 2^58.
#[derive(Clone, Copy, Debug, PartialEq, Eq)]
pub struct Frac {
    num: i64,
    den: u64,
}

impl Model for Frac {
    ghost use Rattle.std.specs.Prelude.{ℕ, ◌+◌, ◌<◌};
    ghost use Rattle.std.proofs.Common.{ap};
    ghost use Rattle.theory_meaning.specs.Fraction.{Fraction};
    ghost use Rattle.theory_points.specs.Parts.{parted, IsKept, less_and_one};

    ghost Value = { Fraction };

    ghost view = { λ f. parted f.num f.den };

    ghost invariant = { λ f. (0 < f.den) × IsKept (parted f.num f.den) };

    ghost inverse = { λ q. record { num = q.num; den = q.less + 1 } };

    ghost inverse_ok = { λ a h. ap (λ (d : ℕ). record { num = a.num; den = d })
        (less_and_one a.den h.0) };
}

impl Frac {
    /// The fraction 0.
    pub fn zero() -> Frac
        ensures { result ≡ whole (pos 0) }
    {
        Frac { num: 0, den: 1 }
    }

    /// The fraction 1.
    pub fn one() -> Frac
        ensures { result ≡ whole (pos 1) }
    {
        Frac { num: 1, den: 1 }
    }

    /// The fraction `n / d` in lowest terms; None where `d` is 0 or a part then passes 2^58.
    pub fn new(n: i128, d: i128) -> Option<Frac>
        ensures value { MatchOption result (IsWideQuotient n d) (IsQuotient n d) }
        ensures kept { IfSome result IsKept }
    {
        if d == 0 {
            return None;
        }
        let (top, bottom) = lowest_terms(n.unsigned_abs(), d.unsigned_abs());
        signed_parts((n < 0) != (d < 0), top, bottom)
    }

    /// The numerator.
    pub fn num(&self) -> i64
        ensures value { result ≡ self.now.num }
        ensures kept { IsKept self.now }
    {
        self.num
    }

    /// The denominator, at least 1.
    pub fn den(&self) -> i64
        ensures value { result ≡ pos (den self.now) }
        ensures kept { IsKept self.now }
    {
        self.den as i64
    }

    pub fn sign(&self) -> Sign
        ensures { HasSign self.now result }
    {
        match self.num.cmp(&0) {
            Ordering::Less => Sign::Minus,
            Ordering::Equal => Sign::Zero,
            Ordering::Greater => Sign::Plus,
        }
    }

    /// Which of two fractions is the greater number.
    pub fn compare(&self, other: &Frac) -> Ordering
        ensures order { MatchOrdering result (IsBelow self.now other.now)
            (IsSame self.now other.now) (IsBelow other.now self.now) }
        ensures equal { result ≡ Ordering.Equal → self.now ≡ other.now }
    {
        self.cross(other).cmp(&other.cross(self))
    }

    pub fn neg(&self) -> Frac
        ensures { result ≡ opposite_of self.now }
    {
        Frac {
            num: -self.num,
            den: self.den,
        }
    }

    /// The sum; None where a part of it passes 2^58 in lowest terms.
    pub fn add(&self, other: &Frac) -> Option<Frac>
        ensures value { MatchOption result (IsWide (sum_of self.now other.now))
            (λ f. IsSame f (sum_of self.now other.now)) }
        ensures kept { IfSome result IsKept }
    {
        Frac::new(
            self.cross(other) + other.cross(self),
            self.den_product(other),
        )
    }

    /// The difference; None where a part of it passes 2^58 in lowest terms.
    pub fn sub(&self, other: &Frac) -> Option<Frac>
        ensures value { MatchOption result (IsWide (difference_of self.now other.now))
            (λ f. IsSame f (difference_of self.now other.now)) }
        ensures kept { IfSome result IsKept }
    {
        Frac::new(
            self.cross(other) - other.cross(self),
            self.den_product(other),
        )
    }

    /// The product; None where a part of it passes 2^58 in lowest terms.
    pub fn mul(&self, other: &Frac) -> Option<Frac>
        ensures value { MatchOption result (IsWide (product_of self.now other.now))
            (λ f. IsSame f (product_of self.now other.now)) }
        ensures kept { IfSome result IsKept }
    {
        Frac::new(self.num_product(other), self.den_product(other))
    }

    /// The numerator over the product of the two denominators.
    fn cross(&self, other: &Frac) -> i128
        ensures value { result ≡ cross self.now other.now }
        ensures small { unsigned_abs result ≤ 2 ^ 116 }
        ensures kept { IsKept self.now }
    {
        product(self.num(), other.den())
    }

    fn num_product(&self, other: &Frac) -> i128
        ensures { result ≡ self.now.num *ℤ other.now.num }
    {
        product(self.num(), other.num())
    }

    fn den_product(&self, other: &Frac) -> i128
        ensures { result ≡ pos (den self.now * den other.now) }
    {
        product(self.den(), other.den())
    }
}

/// Both parts divided by their greatest common divisor.
fn lowest_terms(top: u128, bottom: u128) -> (u128, u128)
    requires { 0 < bottom }
    ensures { AreLowest top bottom result.0 result.1 }
{
    let divisor = common_divisor(top, bottom);
    (top / divisor, bottom / divisor)
}

/// The greatest common divisor by Euclid's algorithm.
fn common_divisor(a: u128, b: u128) -> u128
    requires { 0 < b }
    ensures value { IsGcd a b result }
    ensures positive { 0 < result }
{
    let mut x = a;
    let mut y = b;
    while y != 0 {
        let rest = x % y;
        x = y;
        y = rest;
    }
    x
}

/// The fraction of parts in lowest terms; None where one of them passes 2^58.
fn signed_parts(minus: bool, top: u128, bottom: u128) -> Option<Frac>
    requires positive { 0 < bottom }
    requires coprime { AreCoprime top bottom }
    ensures value { HasBoundedParts minus top bottom result }
    ensures kept { IfSome result IsKept }
{
    if top > W as u128 || bottom > W as u128 {
        return None;
    }
    Some(Frac {
        num: signed_num(minus, top),
        den: bottom as u64,
    })
}

fn signed_num(minus: bool, size: u128) -> i64
    requires { size ≤ bound }
    ensures { result ≡ signed minus size }
{
    if minus { -(size as i64) } else { size as i64 }
}

/// The product of two parts at 128 bits.
fn product(a: i64, b: i64) -> i128
    requires first { unsigned_abs a ≤ bound }
    requires second { unsigned_abs b ≤ bound }
    ensures value { result ≡ a *ℤ b }
    ensures small { unsigned_abs result ≤ 2 ^ 116 }
{
    a as i128 * b as i128
}
