//! The tests of what calls require of names, candidates and formulas.

ghost use Rattle.std.specs.Prelude.{◌≡◌, ◌≤◌, ◌+◌, true, length, IfSome, map};
ghost use Rattle.theory_meaning.specs.Point.{AreDistinct, IsNew};
ghost use Rattle.theory_formula.specs.Formula.{formulas_from};
ghost use Rattle.theory_formula.specs.FormulaAtoms.{atoms_of, atoms_of_all};
ghost use Rattle.theory_signs.specs.Plain.{formula_of};
ghost use Rattle.theory_search.specs.Asked.{AreWithin};

use theory_points::Name;
use theory_search::Candidate;
use theory_signs::Formula;

/// Whether each name is listed once.
pub fn is_distinct(names: &[Name]) -> bool
    ensures { result ≡ true → AreDistinct names.now }
{
    let mut left = names.len();
    while left > 0 {
        left -= 1;
        if !is_new(&names[left], &names[left + 1..]) {
            return false;
        }
    }
    true
}

fn is_new(name: &Name, names: &[Name]) -> bool
    ensures { result ≡ true → IsNew name.now names.now }
{
    for held in names {
        if name.is_same(held) {
            return false;
        }
    }
    true
}

/// Whether each candidate is one that a policy may be asked about.
pub fn are_within(candidates: &[Candidate]) -> bool
    ensures { result ≡ true → AreWithin candidates.now }
{
    for candidate in candidates {
        if candidate.symbol >= 32 || candidate.atoms > 512 || candidate.unsure > 512 {
            return false;
        }
    }
    true
}

/// Whether a formula has at most 512 atoms.
pub fn are_few(formula: &Formula) -> bool
    ensures { result ≡ true → length (atoms_of (formula_of formula.now)) ≤ 512 }
{
    room_beside(formula, 512).is_some()
}

/// What is left of a number when each atom takes 1 away, if that many are there.
#[cycle(room)]
fn room_beside(formula: &Formula, room: u32) -> Option<u32>
    ensures { IfSome result (λ left. left + length (atoms_of (formula_of formula.now)) ≡ room) }
{
    match formula {
        Formula::True | Formula::False => Some(room),
        Formula::Atom(_) => room.checked_sub(1),
        Formula::And(members) | Formula::Or(members) => room_beside_all(members, room),
    }
}

#[cycle(room)]
fn room_beside_all(members: &[Formula], room: u32) -> Option<u32>
    ensures { IfSome result (λ left. left
        + length (atoms_of_all (formulas_from (map formula_of members.now))) ≡ room) }
{
    let mut left = room;
    for member in members {
        match room_beside(member, left) {
            Some(room) => left = room,
            None => return None,
        }
    }
    Some(left)
}
