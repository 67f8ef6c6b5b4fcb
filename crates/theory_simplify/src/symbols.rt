ghost use Rattle.std.specs.Prelude.{◌≡◌, ◌<◌, slice_set};
ghost use Rattle.std.specs.List.{sum};
ghost use Rattle.theory_polynomial.specs.Terms.{no_powers, symbol_of};
ghost use Rattle.theory_elimination.specs.SameFormula.{is_same_poly};
ghost use Rattle.theory_signed.specs.CommonPowers.{odd_part};
ghost use Rattle.theory_signed.specs.PossibleSigns.{is_symbol};

use theory_poly::Term;

/// Whether the polynomial of these terms is a single symbol.
#[tactic(auto, using(crate::proofs::SignLemmas::symbol_laws))]
pub fn is_symbol(terms: &[Term]) -> bool
    ensures { result ≡ is_symbol terms.now }
{
    if terms.len() != 1 {
        return false;
    }
    terms[0].coefficient == 1 && total(&terms[0].powers) == 1
}

/// The sum of the exponents.
fn total(powers: &[u8; 32]) -> u32
    ensures { result ≡ sum powers.now }
{
    let mut sum = 0;
    for power in powers {
        sum += *power as u32;
    }
    sum
}

/// Whether the polynomial of these terms is this symbol, counted from 0.
#[tactic(auto, using(crate::proofs::SignLemmas::is_this_symbol))]
pub fn is_the_symbol(terms: &[Term], x: usize) -> bool
    requires { x < 32 }
    ensures { result ≡ is_same_poly terms.now (symbol_of x) }
{
    if terms.len() != 1 {
        return false;
    }
    terms[0].coefficient == 1 && terms[0].powers == powers_of(x)
}

fn powers_of(x: usize) -> [u8; 32]
    requires { x < 32 }
    ensures { result ≡ slice_set no_powers x 1 }
{
    let mut powers = [0; 32];
    powers[x] = 1;
    powers
}

/// 1 for an odd exponent, 0 for an even one.
#[tactic(auto, using(crate::proofs::SignLemmas::odd_part_is))]
pub fn odd_part(exponent: u8) -> u8
    ensures { result ≡ odd_part exponent }
{
    exponent % 2
}
