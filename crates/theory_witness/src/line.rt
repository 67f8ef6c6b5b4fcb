ghost use Rattle.std.specs.Prelude.{◌≡◌, ◌<◌, ◌≢◌, pos, slice_get};
ghost use Rattle.theory_meaning.specs.Fraction.{Fraction, IsSame};
ghost use Rattle.theory_formula.specs.Signs.{sign_of_whole};
ghost use Rattle.theory_poly.specs.Kept.{IsKept};
ghost use Rattle.theory_witness.specs.Lines.{HoldsOnly, coefficient_of, height};
ghost use Rattle.theory_witness.specs.Lines.{IsKeptLine, IsLineOf};

use crate::ratio::Ratio;
use theory_meaning::Sign;
use theory_points::Frac;
use theory_poly::Poly;
use theory_signs::Atom;

/// Slope times the one symbol, plus base.
#[derive(Clone, Copy, Debug)]
pub struct Line {
    pub slope: i64,
    pub base: i64,
}

/// The line of an atom that holds one symbol alone: that term stands first.
pub fn line_of(x: u8, atom: &Atom) -> Line
    requires symbol { x < 32 }
    requires only { HoldsOnly x atom.now.poly atom.now.signs }
    ensures { IsLineOf x atom.now.poly result }
{
    Line {
        slope: coefficient(atom.poly(), 0),
        base: coefficient(atom.poly(), 1),
    }
}

// The coefficient of the term at a place, 0 past the last.
fn coefficient(poly: &Poly, place: usize) -> i64
    ensures value { result ≡ coefficient_of (slice_get poly.now place) }
    ensures kept { IsKept poly.now }
{
    match poly.terms().get(place) {
        Some(t) => t.coefficient,
        None => 0,
    }
}

impl Line {
    /// The sign of the line at a value of the symbol.
    pub fn sign_at(&self, at: &Ratio) -> Sign
        requires { IsKeptLine self.now }
        ensures { result ≡ sign_of_whole (height self.now at.now) }
    {
        sign_of(at.weighted(self.slope, self.base))
    }

    /// The one value at which the line is zero.
    pub fn root(&self) -> Frac
        requires kept { IsKeptLine self.now }
        requires sloped { self.now.slope ≢ pos 0 }
        ensures zero { height self.now result ≡ pos 0 }
        ensures only { (q : Fraction) → height self.now q ≡ pos 0 → IsSame result q }
    {
        match Frac::new(-(self.base as i128), self.slope as i128) {
            Some(root) => root,
            None => unreachable!(),
        }
    }
}

fn sign_of(n: i128) -> Sign
    ensures { result ≡ sign_of_whole n }
{
    if n < 0 {
        Sign::Minus
    } else if n == 0 {
        Sign::Zero
    } else {
        Sign::Plus
    }
}
