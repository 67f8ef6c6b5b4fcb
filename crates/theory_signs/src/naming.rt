ghost use Rattle.std.specs.Prelude.{◌≡◌, ℕ, ◌≤◌, ◌<◌, length, slice_index, map, MatchBool};
ghost use Rattle.theory_polynomial.specs.Polynomial.{degree_in};
ghost use Rattle.theory_formula.specs.Formula.{formulas_from, EachAtom, EachAtomOfAll};
ghost use Rattle.theory_formula.specs.Symbols.{IsNamed};
ghost use Rattle.theory_signs.specs.Plain.{formula_of};

use crate::formula::Formula;
use theory_points::Names;
use theory_poly::Term;

/// Whether each symbol that occurs has a name in the list, as the written claim requires.
pub fn is_named(formula: &Formula, symbols: &Names) -> bool
    ensures { MatchBool result (EachAtom (IsNamed symbols.now) (formula_of formula.now))
        (¬ EachAtom (IsNamed symbols.now) (formula_of formula.now)) }
{
    formula_is_named(formula, symbols)
}

#[cycle(named)]
fn formula_is_named(formula: &Formula, symbols: &Names) -> bool
    ensures { MatchBool result (EachAtom (IsNamed symbols.now) (formula_of formula.now))
        (¬ EachAtom (IsNamed symbols.now) (formula_of formula.now)) }
{
    match formula {
        Formula::True | Formula::False => true,
        Formula::Atom(atom) => are_free(atom.poly().terms(), symbols.as_slice().len()),
        Formula::And(members) | Formula::Or(members) => members_are_named(members, symbols),
    }
}

#[cycle(named)]
fn members_are_named(members: &[Formula], symbols: &Names) -> bool
    ensures { MatchBool result
        (EachAtomOfAll (IsNamed symbols.now) (formulas_from (map formula_of members.now)))
        (¬ EachAtomOfAll (IsNamed symbols.now) (formulas_from (map formula_of members.now))) }
{
    for member in members {
        if !formula_is_named(member, symbols) {
            return false;
        }
    }
    true
}

/// Whether no term has a symbol from this one on.
fn are_free(terms: &[Term], from: usize) -> bool
    ensures { MatchBool result ((x : ℕ) → from ≤ x → degree_in x terms.now ≡ 0)
        ((x : ℕ) × (from ≤ x) × (0 < degree_in x terms.now)) }
{
    for t in terms {
        if !ends_before(&t.powers, from) {
            return false;
        }
    }
    true
}

/// Whether all exponents from this one on are 0.
fn ends_before(powers: &[u8; 32], from: usize) -> bool
    ensures { MatchBool result ((x : ℕ) → from ≤ x → slice_index powers.now x ≡ 0)
        ((x : ℕ) × (from ≤ x) × (0 < slice_index powers.now x)) }
{
    for k in 0..32 {
        if k >= from && powers[k] != 0 {
            return false;
        }
    }
    true
}
