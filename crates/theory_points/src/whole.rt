ghost use Rattle.std.specs.Prelude.{ℕ, ◌+◌, ◌^◌, ◌≤◌, pos, ◌<ℤ◌, unsigned_abs};
ghost use Rattle.theory_meaning.specs.Between.{IsWholeBelow, IsWholeAbove};
ghost use Rattle.theory_points.specs.Parts.{IsFloor};

use crate::frac::Frac;

/// The greatest whole number below the fraction; for a whole number the one before it.
pub fn whole_below(f: &Frac) -> i64
    ensures value { IsWholeBelow f.now result }
    ensures bound { unsigned_abs result ≤ 2 ^ 58 + 1 }
{
    rounded_down(f.num() - 1, f.den())
}

/// The least whole number above the fraction; for a whole number the one after it.
pub fn whole_above(f: &Frac) -> i64
    ensures value { IsWholeAbove f.now result }
    ensures bound { unsigned_abs result ≤ 2 ^ 58 + 1 }
{
    rounded_down(f.num(), f.den()) + 1
}

/// The quotient rounded down, also where it is negative.
fn rounded_down(num: i64, den: i64) -> i64
    requires { pos 0 <ℤ den }
    ensures value { IsFloor num den result }
    ensures small { unsigned_abs result ≤ unsigned_abs num }
{
    num.div_euclid(den)
}
