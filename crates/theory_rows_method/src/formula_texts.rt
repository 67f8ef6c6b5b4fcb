//! Formulas as they are told: as claims, and by their lists where a claim would hide one.

use crate::fault::RowFault;
use crate::pieces::symbols;
use crate::telling::add_apart;
use std::alloc::Global;
use theory_lower::claim_of;
use theory_points::Bytes;
use theory_signs::{Formula, is_named};
use theory_syntax::Claim;
use theory_text::print_claim;

/// The claim that is written for a formula.
pub fn written(alloc: Global, formula: &Formula) -> Result<Claim, RowFault> {
    let symbols = symbols(alloc)?;
    if !is_named(formula, &symbols) {
        return Err(RowFault::Unreadable);
    }
    Ok(claim_of(alloc, formula, &symbols)?)
}

pub fn printed(alloc: Global, formula: &Formula) -> Result<Bytes, RowFault> {
    let claim = written(alloc, formula)?;
    Ok(print_claim(alloc, &claim)?)
}

/// The formula as a claim; with `all`, `some` and `end` where a list has one member or none.
pub fn shown(alloc: Global, formula: &Formula) -> Result<Bytes, RowFault> {
    let mut text = Bytes::new(alloc);
    add_parts(alloc, &mut text, formula)?;
    Ok(text)
}

#[cycle(add_parts)]
fn add_parts(alloc: Global, text: &mut Bytes, formula: &Formula) -> Result<(), RowFault> {
    if !has_short_list(formula) {
        return add_apart(text, b"; ", printed(alloc, formula)?.as_slice());
    }
    match formula {
        Formula::And(members) => add_list(alloc, text, b"all", members),
        Formula::Or(members) => add_list(alloc, text, b"some", members),
        _ => Ok(()),
    }
}

#[cycle(add_parts)]
fn add_list(
    alloc: Global,
    text: &mut Bytes,
    word: &[u8],
    members: &[Formula],
) -> Result<(), RowFault> {
    add_apart(text, b"; ", word)?;
    for member in members {
        add_parts(alloc, text, member)?;
    }
    add_apart(text, b"; ", b"end")
}

/// Whether some list has one member or none.
#[cycle(has_short_list)]
fn has_short_list(formula: &Formula) -> bool {
    match formula {
        Formula::And(members) => members.len() < 2 || some_has_short_list(members),
        Formula::Or(members) => members.len() < 2 || some_has_short_list(members),
        _ => false,
    }
}

#[cycle(has_short_list)]
fn some_has_short_list(members: &[Formula]) -> bool {
    for member in members {
        if has_short_list(member) {
            return true;
        }
    }
    false
}
