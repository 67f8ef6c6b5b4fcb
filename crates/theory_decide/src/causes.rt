ghost use Rattle.std.specs.Prelude.{◌≡◌, ℕ, ◌≤◌, [], ◌∷◌, ◌++◌, length, map, slice_index_or, IfOk};
ghost use Rattle.theory_decision.specs.Answers.{stuck_name};
ghost use Rattle.theory_decision.specs.Answers as written;
ghost use Rattle.theory_decision.specs.Finding.{AreFreeOf, IsFreeFailure};
ghost use Rattle.theory_search.specs.Outcomes.{failure_of};
ghost use Rattle.theory_search.specs.Outcomes as found;
ghost use Rattle.theory_verdict.specs.Plain.{cause_of, stuck_of};

use std::alloc::Global;
use theory_lower::claim_of;
use theory_points::{Name, Names, NoMemory};
use theory_search::{Failure, StuckAtom};
use theory_signs::Formula;
use theory_verdict::{Cause, StuckOn, StuckOns};

/// The cause that a failure is over the listed names.
pub fn cause(alloc: Global, failure: &Failure, symbols: &Names) -> Result<Cause, NoMemory>
    requires { (y : ℕ) → length symbols.now ≤ y → IsFreeFailure y (failure_of failure.now) }
    ensures { IfOk result (λ c.
        cause_of c ≡ written.cause_of symbols.now (failure_of failure.now)) }
{
    match failure {
        Failure::Stuck(atoms) => Ok(Cause::Stuck(stuck_ons(alloc, atoms, symbols)?)),
        Failure::Wide => Ok(Cause::Wide),
        Failure::Large => Ok(Cause::Large),
        Failure::Budget => Ok(Cause::Budget),
        Failure::ManyLeaves => Ok(Cause::ManyLeaves),
    }
}

fn stuck_ons(alloc: Global, atoms: &[StuckAtom], symbols: &Names) -> Result<StuckOns, NoMemory>
    requires { (y : ℕ) → length symbols.now ≤ y → AreFreeOf y (map found.stuck_of atoms.now) }
    ensures { IfOk result (λ ons. map stuck_of ons.items
        ≡ map (stuck_name symbols.now) (map found.stuck_of atoms.now)) }
{
    let mut all = Vec::new(alloc);
    for atom in atoms {
        all.push(stuck_on(alloc, atom, symbols)?)?;
    }
    Ok(all)
}

/// The name of a stuck symbol, and the claim of its atom.
fn stuck_on(alloc: Global, stuck: &StuckAtom, symbols: &Names) -> Result<StuckOn, NoMemory>
    requires { (y : ℕ) → length symbols.now ≤ y → AreFreeOf y (found.stuck_of stuck.now ∷ []) }
    ensures { IfOk result (λ on. stuck_of on ≡ stuck_name symbols.now (found.stuck_of stuck.now)) }
{
    let symbol = name_at(alloc, symbols.as_slice(), stuck.symbol as usize)?;
    let atom = Formula::Atom(stuck.atom.with_signs(alloc, stuck.atom.signs())?);
    let atom = claim_of(alloc, &atom, symbols)?;
    Ok(StuckOn { symbol, atom })
}

/// The name at a place, empty past the last.
fn name_at(alloc: Global, names: &[Name], place: usize) -> Result<Name, NoMemory>
    ensures { IfOk result (λ name. name ≡ slice_index_or names.now place []) }
{
    match names.get(place) {
        Some(name) => name.copy(alloc),
        None => Name::from_slice(alloc, b""),
    }
}
