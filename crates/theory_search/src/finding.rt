ghost use Rattle.std.specs.Prelude.{◌≡◌, ◌≢◌, ◌<◌, ◌≤◌, ◌++◌, [], ◌∷◌, IfOk, IfSome, OnOk, map};
ghost use Rattle.theory_decision.specs.Choice as written;
ghost use Rattle.theory_decision.specs.Finding.{finding, finding_in};
ghost use Rattle.theory_decision.specs.Finding as plain;
ghost use Rattle.theory_signs.specs.Plain.{formula_of};
ghost use Rattle.theory_search.specs.Asked.{IsAsked};
ghost use Rattle.theory_search.specs.Atoms.{rows_of};
ghost use Rattle.theory_search.specs.Outcomes.{stuck_of, stuck_by, stuck_other, stuck_below};
ghost use Rattle.theory_search.specs.Runs.{node_of, finding_of, IsReady, IsChosen};

use crate::atoms::{atoms, has_others, is_other};
use crate::candidacy::{Candidates, listed};
use crate::outcome::{Failure, StuckAtom, StuckAtoms};
use crate::policy::Policy;
use crate::simplifying::simplified;
use std::alloc::Global;
use theory_points::NoMemory;
use theory_signs::{Atom, Formula};

/// A formula to visit, or a branch of which a cross product passes a limit.
#[derive(Drop)]
pub enum Node {
    Reached(Formula),
    TooWide,
}

/// What is found at a node, before any branch of it is visited.
#[derive(Drop)]
pub enum Found {
    Nowhere,
    Everywhere,
    Fails(Failure),
    /// In the simplified formula only kept symbols occur.
    Leaf(Formula),
    /// The symbol is eliminated from the simplified formula.
    Eliminates(u8, Formula),
}

/// What is found at a node of this depth.
pub fn finding(
    alloc: Global,
    policy: &Policy,
    keep: &[u8],
    depth: u32,
    node: &Node,
) -> Result<Found, NoMemory>
    ensures written { IfOk result (λ f.
        finding_of f ≡ finding keep.now policy.now.kind depth (node_of node.now)) }
    ensures ready { IfOk result (IsReady depth) }
{
    match node {
        Node::TooWide => Ok(Found::Fails(Failure::Wide)),
        Node::Reached(formula) => {
            let simple = simplified(alloc, policy.kind, formula)?;
            at_simple(alloc, policy, keep, depth, simple)
        }
    }
}

/// What is found at a simplified formula.
fn at_simple(
    alloc: Global,
    policy: &Policy,
    keep: &[u8],
    depth: u32,
    simple: Formula,
) -> Result<Found, NoMemory>
    ensures written { IfOk result (λ f.
        finding_of f ≡ finding_in keep.now policy.now.kind depth (formula_of simple)) }
    ensures ready { IfOk result (IsReady depth) }
{
    match simple {
        Formula::True => Ok(Found::Everywhere),
        Formula::False => Ok(Found::Nowhere),
        open => match chosen(alloc, policy, keep, depth, &open)? {
            Choice::Symbol(x) => Ok(Found::Eliminates(x, open)),
            Choice::KeptAlone => Ok(Found::Leaf(open)),
            Choice::Fails(failure) => Ok(Found::Fails(failure)),
        },
    }
}

/// The symbol that is eliminated from a formula, or why none is.
#[derive(Drop)]
pub enum Choice {
    Symbol(u8),
    /// Only kept symbols occur.
    KeptAlone,
    Fails(Failure),
}

fn chosen(
    alloc: Global,
    policy: &Policy,
    keep: &[u8],
    depth: u32,
    formula: &Formula,
) -> Result<Choice, NoMemory>
    ensures { IfOk result
        (IsChosen keep.now policy.now.kind depth (formula_of formula.now)) }
{
    let found = atoms(alloc, formula)?;
    if depth > 64 || found.len() > 512 {
        return Ok(Choice::Fails(Failure::Large));
    }
    if !has_others(keep, &found) {
        return Ok(Choice::KeptAlone);
    }
    let all = listed(alloc, keep, formula, &found)?;
    match taken(policy, &all) {
        Some(x) => Ok(Choice::Symbol(x)),
        None => Ok(Choice::Fails(Failure::Stuck(stuck_atoms(alloc, keep, &found)?))),
    }
}

/// The symbol of the candidate that the policy takes, if there is a candidate.
fn taken(policy: &Policy, all: &Candidates) -> Option<u8>
    requires { all.now.items ≢ [] → IsAsked all.now.items }
    ensures value { result ≡ written.chosen policy.now.kind all.now.items }
    ensures small { IfSome result (λ x. x < 32) }
{
    if all.is_empty() {
        return None;
    }
    let place = policy.place(all);
    Some(all[place].symbol)
}

/// For each symbol that occurs and isn't kept the first atom in which its degree is above 1.
fn stuck_atoms(alloc: Global, keep: &[u8], atoms: &[&Atom]) -> Result<StuckAtoms, NoMemory>
    ensures { IfOk result (λ found.
        map stuck_of found.items ≡ stuck_below keep.now (rows_of atoms.now) 32) }
{
    let mut all = Vec::new(alloc);
    for x in 0..32 {
        add_other(alloc, keep, x, atoms, &mut all)?;
    }
    Ok(all)
}

fn add_other(
    alloc: Global,
    keep: &[u8],
    x: u8,
    atoms: &[&Atom],
    all: &mut StuckAtoms,
) -> Result<(), NoMemory>
    requires { x < 32 }
    ensures { OnOk result (map stuck_of all.new.items
        ≡ map stuck_of all.old.items ++ stuck_other keep.now (rows_of atoms.now) x) }
{
    if is_other(keep, x, atoms) {
        add_stuck(alloc, x, atoms, all)?;
    }
    Ok(())
}

fn add_stuck(alloc: Global, x: u8, atoms: &[&Atom], all: &mut StuckAtoms) -> Result<(), NoMemory>
    requires { x < 32 }
    ensures { OnOk result (map stuck_of all.new.items
        ≡ map stuck_of all.old.items ++ plain.stuck_at x (rows_of atoms.now)) }
{
    match first_curved(x, atoms) {
        Some(atom) => push_stuck(all, x, atom.with_signs(alloc, atom.signs())?),
        None => Ok(()),
    }
}

fn first_curved<'a>(x: u8, atoms: &[&'a Atom]) -> Option<&'a Atom>
    requires { x < 32 }
    ensures { plain.stuck_at x (rows_of atoms.now) ≡ stuck_by x result }
{
    for atom in atoms {
        if atom.poly().degree_in(x) > 1 {
            return Some(*atom);
        }
    }
    None
}

fn push_stuck(all: &mut StuckAtoms, symbol: u8, atom: Atom) -> Result<(), NoMemory>
    ensures { OnOk result (map stuck_of all.new.items
        ≡ map stuck_of all.old.items ++ record {
          symbol = symbol;
          poly = atom.poly;
          signs = atom.signs;
        } ∷ []) }
{
    all.push(StuckAtom { symbol, atom })?;
    Ok(())
}
