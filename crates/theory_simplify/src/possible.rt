ghost use Rattle.std.specs.Prelude.{◌≡◌, ◌<◌};
ghost use Rattle.theory_signed.specs.SignRules.{powers, products};
ghost use Rattle.theory_signed.specs.PossibleSigns.{of_powers, of_term, of_symbols, possible_signs, judged_by_signs};
ghost use Rattle.theory_simplify.specs.Parts.{facts_of};

use crate::facts::judged_by;
use crate::lent::LentAtom;
use crate::sign_rules::{Known, of_whole, power, products, sums};
use crate::symbols::{is_symbol, is_the_symbol};
use theory_poly::Term;
use theory_signs::Signs;

/// What the signs of its symbols say of a condition; None on a single symbol, or where it is open.
pub fn judged_by_signs(facts: &[LentAtom<'_>], atom: &LentAtom<'_>) -> Option<bool>
    ensures { result ≡ judged_by_signs (facts_of facts.now) atom.now.poly atom.now.signs }
{
    if is_symbol(atom.poly().terms()) {
        None
    } else {
        judged_by(atom.signs(), possible_signs(facts, atom.poly().terms()))
    }
}

/// What the facts on its symbols say of the sign of a polynomial.
fn possible_signs(facts: &[LentAtom<'_>], terms: &[Term]) -> Known
    ensures { result ≡ possible_signs (facts_of facts.now) terms.now }
{
    let mut known = Some(Signs::Zero);
    for term in terms {
        known = sums(known, of_term(facts, term));
    }
    known
}

/// The same of a term.
fn of_term(facts: &[LentAtom<'_>], term: &Term) -> Known
    ensures { result ≡ of_term (of_symbols (facts_of facts.now)) term.now }
{
    products(of_whole(term.coefficient), of_powers(facts, &term.powers))
}

/// The same of a product of powers of the symbols.
#[tactic(auto, using(crate::proofs::SignLemmas::from_first))]
fn of_powers(facts: &[LentAtom<'_>], powers: &[u8; 32]) -> Known
    ensures { result ≡ of_powers (of_symbols (facts_of facts.now)) powers.now }
{
    let mut known = Some(Signs::Pos);
    for done in 0..32 {
        let x = 31 - done;
        known = with_power(facts, x, powers[x], known);
    }
    known
}

/// The same of a power of a symbol times what stands behind it.
#[tactic(auto, using(crate::proofs::SignLemmas::no_power_times))]
fn with_power(facts: &[LentAtom<'_>], x: usize, exponent: u8, behind: Known) -> Known
    requires { x < 32 }
    ensures { result ≡ products (powers (of_symbols (facts_of facts.now) x) exponent) behind }
{
    if exponent == 0 {
        return behind;
    }
    products(power(known_symbol(facts, x), exponent), behind)
}

/// What the facts say of the sign of a symbol, counted from 0.
#[tactic(auto, using(crate::proofs::SignLemmas::symbol_known))]
fn known_symbol(facts: &[LentAtom<'_>], x: usize) -> Known
    requires { x < 32 }
    ensures { result ≡ of_symbols (facts_of facts.now) x }
{
    for fact in facts {
        if is_the_symbol(fact.poly().terms(), x) {
            return Some(fact.signs());
        }
    }
    None
}
