ghost use Rattle.std.specs.Prelude.{◌≡◌, pos, ◌+ℤ◌, ◌*ℤ◌, ◌≤◌, ◌^◌};
ghost use Rattle.std.specs.Prelude.{unsigned_abs, ◌<◌, MatchOption, IfSome};
ghost use Rattle.theory_meaning.specs.Fraction.{den, whole, IsSame};
ghost use Rattle.theory_meaning.specs.Limits.{bound, IsWide};
ghost use Rattle.theory_points.specs.Parts.{parted, IsKept};

use std::marker::Model;
use theory_points::Frac;

/// A value that is tried: its parts may pass the bound of fractions, and stay within 2^60.
#[derive(Clone, Copy, Debug)]
pub struct Ratio {
    num: i64,
    den: u64,
}

impl Model for Ratio {
    ghost use Rattle.std.specs.Prelude.{ℕ, ◌<◌, ◌≤◌, ◌^◌, ◌+◌, unsigned_abs};
    ghost use Rattle.std.proofs.Common.{ap};
    ghost use Rattle.theory_meaning.specs.Fraction.{Fraction};
    ghost use Rattle.theory_points.specs.Parts.{parted, less_and_one};

    ghost Value = { Fraction };

    ghost view = { λ r. parted r.num r.den };

    ghost invariant = { λ r. (0 < r.den) × (unsigned_abs r.num ≤ 2 ^ 60) × (r.den ≤ 2 ^ 60) };

    ghost inverse = { λ q. record { num = q.num; den = q.less + 1 } };

    ghost inverse_ok = { λ a h. ap (λ (d : ℕ). record { num = a.num; den = d })
        (less_and_one a.den h.0) };
}

impl Ratio {
    /// The quotient of two numbers that are within 2^60.
    pub fn new(num: i64, den: u64) -> Self
        requires positive { 0 < den }
        requires top { unsigned_abs num ≤ 2 ^ 60 }
        requires bottom { den ≤ 2 ^ 60 }
        ensures { result ≡ parted num den }
    {
        Ratio { num, den }
    }

    pub fn of_frac(frac: &Frac) -> Self
        ensures { result ≡ frac.now }
    {
        Ratio::new(frac.num(), frac.den() as u64)
    }

    pub fn of_whole(num: i64) -> Self
        requires { unsigned_abs num ≤ 2 ^ 60 }
        ensures { result ≡ whole num }
    {
        Ratio::new(num, 1)
    }

    /// The same number as a fraction in lowest terms, where its parts are within the bound.
    pub fn reduced(&self) -> Option<Frac>
        ensures value { MatchOption result (IsWide self.now) (λ f. IsSame f self.now) }
        ensures kept { IfSome result IsKept }
    {
        Frac::new(self.num as i128, self.den as i128)
    }

    /// A multiple of the numerator and one of the denominator, added up within 128 bits.
    pub fn weighted(&self, slope: i64, base: i64) -> i128
        requires first { unsigned_abs slope ≤ bound }
        requires second { unsigned_abs base ≤ bound }
        ensures { result ≡ (slope *ℤ self.now.num) +ℤ (base *ℤ pos (den self.now)) }
    {
        let rise = self.times_num(slope);
        let rest = self.times_den(base);
        rise + rest
    }

    fn times_num(&self, slope: i64) -> i128
        requires { unsigned_abs slope ≤ bound }
        ensures value { result ≡ slope *ℤ self.now.num }
        ensures small { unsigned_abs result ≤ 2 ^ 118 }
    {
        slope as i128 * self.num as i128
    }

    fn times_den(&self, base: i64) -> i128
        requires { unsigned_abs base ≤ bound }
        ensures value { result ≡ base *ℤ pos (den self.now) }
        ensures small { unsigned_abs result ≤ 2 ^ 118 }
    {
        base as i128 * self.den as i128
    }
}
