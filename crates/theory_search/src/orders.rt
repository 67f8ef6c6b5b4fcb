//! The choices of the four kinds, as plain functions that a policy may be made of.

ghost use Rattle.std.specs.Prelude.{◌≡◌, position};
ghost use Rattle.std.specs.List.{list_any};
ghost use Rattle.theory_meaning.specs.declared.words.Kind.TheVariants as kind;
ghost use Rattle.theory_decision.specs.Choice.{choice, first_by, is_rarer, is_surer};

use crate::candidacy::Candidates;
use theory_decision::Candidate;

/// The first.
pub fn listed(_candidates: &Candidates) -> usize
    ensures { result ≡ choice kind.Listed _candidates.now.items }
{
    0
}

/// The one that the fewest atoms hold; of equals the first.
pub fn rare(candidates: &Candidates) -> usize
    ensures { result ≡ choice kind.Rare candidates.now.items }
{
    rarest(candidates)
}

/// The first that is marked as unit, and where there is none as `rare`.
pub fn unit(candidates: &Candidates) -> usize
    ensures { result ≡ choice kind.Unit candidates.now.items }
{
    match first_unit(candidates) {
        Some(place) => place,
        None => rarest(candidates),
    }
}

/// The first that is marked as unit, and where there is none the surest; of equals the first.
pub fn signed(candidates: &Candidates) -> usize
    ensures { result ≡ choice kind.Signed candidates.now.items }
{
    match first_unit(candidates) {
        Some(place) => place,
        None => surest(candidates),
    }
}

fn first_unit(candidates: &[Candidate]) -> Option<usize>
    ensures { result ≡ position (λ c. c.unit) candidates.now }
{
    candidates.iter().position(|c| c.unit)
}

/// The place of the first before which none goes by the number of atoms.
fn rarest(candidates: &[Candidate]) -> usize
    ensures { result ≡ first_by is_rarer candidates.now }
{
    for (place, candidate) in candidates.iter().enumerate() {
        if !some_is_rarer(candidates, candidate) {
            return place;
        }
    }
    candidates.len()
}

fn some_is_rarer(candidates: &[Candidate], than: &Candidate) -> bool
    ensures { result ≡ list_any (λ d. is_rarer d than.now) candidates.now }
{
    for candidate in candidates {
        if candidate.atoms < than.atoms {
            return true;
        }
    }
    false
}

/// The same by the number of atoms with a coefficient that isn't constant, then by that of atoms.
fn surest(candidates: &[Candidate]) -> usize
    ensures { result ≡ first_by is_surer candidates.now }
{
    for (place, candidate) in candidates.iter().enumerate() {
        if !some_is_surer(candidates, candidate) {
            return place;
        }
    }
    candidates.len()
}

fn some_is_surer(candidates: &[Candidate], than: &Candidate) -> bool
    ensures { result ≡ list_any (λ d. is_surer d than.now) candidates.now }
{
    for candidate in candidates {
        if is_surer(candidate, than) {
            return true;
        }
    }
    false
}

fn is_surer(candidate: &Candidate, than: &Candidate) -> bool
    ensures { result ≡ is_surer candidate.now than.now }
{
    candidate.unsure < than.unsure
        || (candidate.unsure == than.unsure && candidate.atoms < than.atoms)
}
