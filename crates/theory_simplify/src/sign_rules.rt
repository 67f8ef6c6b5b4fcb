ghost use Rattle.std.specs.Prelude.{◌≡◌, false, ◌&&◌, ◌||◌};
ghost use Rattle.theory_meaning.specs.declared.words.Sign.TheVariants.{Minus, Zero, Plus};
ghost use Rattle.theory_formula.specs.Signs.{set_of, sign_of_whole};
ghost use Rattle.theory_elimination.specs.TestPoint.{is_same_sign};
ghost use Rattle.theory_signed.specs.SignRules.{may_be, known_by, powers, products, sums};

use crate::symbols::odd_part;
use theory_meaning::Sign;
use theory_signs::Signs;

/// What is known of a sign: that it is in a set; None for nothing.
pub type Known = Option<Signs>;

/// The sign of a whole number.
pub fn of_whole(n: i64) -> Known
    ensures { result ≡ known_by (is_same_sign (sign_of_whole n)) }
{
    if n < 0 {
        Some(Signs::Neg)
    } else if n == 0 {
        Some(Signs::Zero)
    } else {
        Some(Signs::Pos)
    }
}

/// The signs of a power of a number with a possible sign.
#[tactic(auto, using(crate::proofs::SignLemmas::power_laws))]
pub fn power(known: Known, exponent: u8) -> Known
    ensures { result ≡ powers known exponent }
{
    if exponent == 0 {
        Some(Signs::Pos)
    } else if odd_part(exponent) == 1 {
        known
    } else {
        square(known)
    }
}

/// The signs of the square of a number with a possible sign.
fn square(known: Known) -> Known
    ensures { result
        ≡ set_of false (may_be known Zero) (may_be known Minus || may_be known Plus) }
{
    let nonzero = may_be(known, Sign::Minus) || may_be(known, Sign::Plus);
    known_by(false, may_be(known, Sign::Zero), nonzero)
}

/// The signs of a product of two numbers, each with a possible sign.
#[tactic(auto, using(crate::proofs::SignLemmas::products_by_members))]
pub fn products(first: Known, second: Known) -> Known
    ensures { result ≡ products first second }
{
    known_by(
        have_signs(first, Sign::Minus, second, Sign::Plus)
            || have_signs(first, Sign::Plus, second, Sign::Minus),
        may_be(first, Sign::Zero) || may_be(second, Sign::Zero),
        have_signs(first, Sign::Minus, second, Sign::Minus)
            || have_signs(first, Sign::Plus, second, Sign::Plus),
    )
}

/// The signs of a sum of two numbers, each with a possible sign.
#[tactic(auto, using(crate::proofs::SignLemmas::sums_by_members))]
pub fn sums(first: Known, second: Known) -> Known
    ensures { result ≡ sums first second }
{
    known_by(
        may_be(first, Sign::Minus) || may_be(second, Sign::Minus),
        have_signs(first, Sign::Zero, second, Sign::Zero)
            || have_signs(first, Sign::Minus, second, Sign::Plus)
            || have_signs(first, Sign::Plus, second, Sign::Minus),
        may_be(first, Sign::Plus) || may_be(second, Sign::Plus),
    )
}

/// Whether two numbers can have these signs.
fn have_signs(first: Known, one: Sign, second: Known, other: Sign) -> bool
    ensures { result ≡ may_be first one && may_be second other }
{
    may_be(first, one) && may_be(second, other)
}

/// Whether the sign is possible.
fn may_be(known: Known, sign: Sign) -> bool
    ensures { result ≡ may_be known sign }
{
    match known {
        Some(signs) => signs.has(sign),
        None => true,
    }
}

/// What is known where these signs are possible.
fn known_by(minus: bool, zero: bool, plus: bool) -> Known
    ensures { result ≡ set_of minus zero plus }
{
    match (minus, zero, plus) {
        (true, false, false) => Some(Signs::Neg),
        (false, true, false) => Some(Signs::Zero),
        (false, false, true) => Some(Signs::Pos),
        (true, true, false) => Some(Signs::NotPos),
        (true, false, true) => Some(Signs::NonZero),
        (false, true, true) => Some(Signs::NotNeg),
        (true, true, true) | (false, false, false) => None,
    }
}
