ghost use Rattle.std.specs.Prelude.{◌≡◌, MatchOption, true, false};
ghost use Rattle.theory_elimination.specs.TestPoint.{is_constant, constant_sign};

use theory_meaning::Sign;
use theory_poly::Poly;
use theory_signs::constant_sign;

/// The sign of a slope without symbols; None where some symbol occurs.
pub fn sign_of_slope(slope: &Poly) -> Option<Sign>
    ensures { MatchOption result (is_constant slope.now ≡ false)
        (λ s. (is_constant slope.now ≡ true) × (s ≡ constant_sign slope.now)) }
{
    constant_sign(slope)
}
