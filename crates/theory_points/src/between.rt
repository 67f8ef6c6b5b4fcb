ghost use Rattle.std.specs.Prelude.{◌≡◌, ℕ, ◌+◌, ◌*◌, ◌<◌, ◌≤◌, unsigned_abs};
ghost use Rattle.theory_meaning.specs.Fraction.{den, IsBelow};
ghost use Rattle.theory_meaning.specs.Limits.{IsReduced, bound};
ghost use Rattle.theory_meaning.specs.Between.{IsSimplestBetween};
ghost use Rattle.theory_points.specs.Parts.{IsKept};
ghost use Rattle.theory_points.specs.Simplest.{HasParts, IsWithinTwice, IsLeastBetween, IsLeastOfMagnitudes};

use crate::frac::Frac;

/// A fraction at least 0, where the denominator 0 stands for infinity.
#[derive(Clone, Copy)]
struct Ratio {
    top: u64,
    bottom: u64,
}

/// Numerator and denominator of the simplest fraction strictly between: the least denominator of
/// all, and then the least absolute numerator.
pub fn simplest_between(lo: &Frac, hi: &Frac) -> (i64, i64)
    requires { IsBelow lo.now hi.now }
    ensures simplest { HasParts result.0 result.1 (IsSimplestBetween lo.now hi.now) }
    ensures reduced { HasParts result.0 result.1 IsReduced }
    ensures bounds { IsWithinTwice result.0 result.1 }
{
    if hi.num() <= 0 {
        let (top, bottom) = simplest_of_magnitudes(hi, lo);
        (-top, bottom)
    } else if lo.num() < 0 {
        (0, 1)
    } else {
        simplest_of_magnitudes(lo, hi)
    }
}

/// The same between two fractions that are at least 0, or taken without their signs.
fn simplest_of_magnitudes(lo: &Frac, hi: &Frac) -> (i64, i64)
    requires { unsigned_abs lo.now.num * den hi.now < unsigned_abs hi.now.num * den lo.now }
    ensures least { IsLeastOfMagnitudes lo.now hi.now result.0 result.1 }
    ensures bounds { IsWithinTwice result.0 result.1 }
{
    let found = simplest(magnitude(lo), magnitude(hi));
    (found.top as i64, found.bottom as i64)
}

/// Takes the whole part off and turns both ends over, as Euclid's algorithm does.
fn simplest(lo: Ratio, hi: Ratio) -> Ratio
    requires apart { lo.top * hi.bottom < hi.top * lo.bottom }
    requires tops { lo.top + hi.top ≤ 2 * bound }
    requires bottoms { lo.bottom + hi.bottom ≤ 2 * bound }
    ensures { IsLeastBetween lo.top lo.bottom hi.top hi.bottom result.top result.bottom }
{
    let whole = lo.top / lo.bottom;
    let taken = whole * hi.bottom;
    if taken + hi.bottom < hi.top {
        return Ratio {
            top: whole + 1,
            bottom: 1,
        };
    }
    let turned_hi = Ratio {
        top: hi.bottom,
        bottom: hi.top - taken,
    };
    let turned_lo = Ratio {
        top: lo.bottom,
        bottom: lo.top % lo.bottom,
    };
    let rest = simplest(turned_hi, turned_lo);
    Ratio {
        top: whole * rest.top + rest.bottom,
        bottom: rest.top,
    }
}

/// The absolute numerator over the denominator: the fraction without its sign.
fn magnitude(q: &Frac) -> Ratio
    ensures top { result.top ≡ unsigned_abs q.now.num }
    ensures bottom { result.bottom ≡ den q.now }
    ensures kept { IsKept q.now }
{
    Ratio {
        top: q.num().unsigned_abs(),
        bottom: q.den() as u64,
    }
}
