//! Candidates, and the place that an order takes.

use crate::kinds::kind;
use crate::premises::{are_few, are_within};
use std::alloc::Global;
use theory_points::Bytes;
use theory_rows_method::fault::RowFault;
use theory_rows_method::formulas::formula;
use theory_rows_method::pieces::{small, symbol, symbol_name};
use theory_rows_method::telling::{add_apart, add_whole};
use theory_search::{Candidate, Candidates, Kind, Policies, candidates};

/// The candidates of a formula, each with the number of its atoms, of those whose slope isn't
/// constant, and `unit` where it is one.
pub fn candidates_told(alloc: Global, field: &str) -> Result<Bytes, RowFault> {
    let formula = formula(alloc, field)?;
    if !are_few(&formula) {
        return Err(RowFault::Unreadable);
    }
    let found = candidates(alloc, &formula)?;
    let mut text = Bytes::new(alloc);
    for candidate in &found {
        add_candidate(alloc, &mut text, candidate)?;
    }
    Ok(text)
}

fn add_candidate(alloc: Global, text: &mut Bytes, candidate: &Candidate) -> Result<(), RowFault> {
    add_apart(text, b"; ", symbol_name(candidate.symbol)?.as_bytes())?;
    text.extend(b" ")?;
    add_whole(alloc, text, i128::from(candidate.atoms))?;
    text.extend(b" ")?;
    add_whole(alloc, text, i128::from(candidate.unsure))?;
    if candidate.unit {
        text.extend(b" unit")?;
    }
    Ok(())
}

/// The place that an order takes among candidates that are written so.
pub fn placed(
    alloc: Global,
    policies: &Policies,
    order: &str,
    field: &str,
) -> Result<Bytes, RowFault> {
    let kind = kind(order)?;
    let mut all = Vec::new(alloc);
    for part in field.split(';') {
        all.push(candidate(part.trim())?)?;
    }
    let place = place(policies, kind, &all)?;
    let mut text = Bytes::new(alloc);
    add_whole(alloc, &mut text, place as i128)?;
    Ok(text)
}

fn candidate(part: &str) -> Result<Candidate, RowFault> {
    let (name, rest) = part.split_once(' ').unwrap_or((part, ""));
    let (atoms, rest) = rest.split_once(' ').unwrap_or((rest, ""));
    let (unsure, unit) = rest.split_once(' ').unwrap_or((rest, ""));
    Ok(Candidate {
        symbol: symbol(name)?,
        atoms: small(atoms)?,
        unit: unit == "unit",
        unsure: small(unsure)?,
    })
}

fn place(policies: &Policies, kind: Kind, candidates: &Candidates) -> Result<usize, RowFault> {
    if candidates.is_empty() || candidates.len() > 32 || !are_within(candidates) {
        return Err(RowFault::Unreadable);
    }
    Ok(policies.policy(kind).place(candidates))
}
