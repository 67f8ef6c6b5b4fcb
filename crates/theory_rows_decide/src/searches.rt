//! Searches and leaves of formulas, and their forms by signs.

use crate::kinds::kind;
use std::alloc::Global;
use theory_points::Bytes;
use theory_rows_method::fault::RowFault;
use theory_rows_method::formula_texts::shown;
use theory_rows_method::formulas::formula;
use theory_rows_method::pieces::{symbol, symbol_name};
use theory_rows_method::telling::{add_apart, add_whole, told};
use theory_search::{Failure, Leaves, Outcome, Path, Policies, StuckAtoms, leaves, search};
use theory_signs::{Formula, Formulas};
use theory_simplify::simplify_signed;

/// The simplified form by signs.
pub fn simplified(alloc: Global, field: &str) -> Result<Bytes, RowFault> {
    let formula = formula(alloc, field)?;
    shown(alloc, &simplify_signed(alloc, &formula)?)
}

/// What the search of a formula gives by an order.
pub fn searched(
    alloc: Global,
    policies: &Policies,
    order: &str,
    field: &str,
) -> Result<Bytes, RowFault> {
    let formula = formula(alloc, field)?;
    match search(alloc, &formula, policies.policy(kind(order)?))? {
        Outcome::Hit(path) => hit_told(alloc, &path),
        Outcome::Empty => told(alloc, "empty"),
        Outcome::Failed(failure) => failure_told(alloc, failure),
    }
}

/// The leaves of a formula over the symbols to keep, which stand between blanks, by an order.
pub fn leaves_told(
    alloc: Global,
    policies: &Policies,
    order: &str,
    keep: &str,
    field: &str,
) -> Result<Bytes, RowFault> {
    let formula = formula(alloc, field)?;
    let keep = kept(alloc, keep)?;
    match leaves(
        alloc,
        &formula,
        keep.as_slice(),
        policies.policy(kind(order)?),
    )? {
        Leaves::All(formulas) => all_told(alloc, &formulas),
        Leaves::Everywhere => told(alloc, "everywhere"),
        Leaves::Failed(failure) => failure_told(alloc, failure),
    }
}

fn kept(alloc: Global, field: &str) -> Result<Vec<u8>, RowFault> {
    let mut all = Vec::new(alloc);
    for word in field.split(' ') {
        if !word.is_empty() {
            all.push(symbol(word)?)?;
        }
    }
    Ok(all)
}

/// The number of the leaves, and each of them.
fn all_told(alloc: Global, formulas: &Formulas) -> Result<Bytes, RowFault> {
    let mut text = Bytes::new(alloc);
    add_whole(alloc, &mut text, formulas.len() as i128)?;
    for formula in formulas {
        text.extend(b"; ")?;
        text.extend(shown(alloc, formula)?.as_slice())?;
    }
    Ok(text)
}

/// The steps of a hit, the first one first: each symbol, and the formula from which it goes.
fn hit_told(alloc: Global, path: &Path) -> Result<Bytes, RowFault> {
    let mut text = told(alloc, "hit")?;
    for step in path {
        text.extend(b"; ")?;
        text.extend(symbol_name(step.symbol)?.as_bytes())?;
        text.extend(b" from ")?;
        text.extend(shown(alloc, &step.formula)?.as_slice())?;
    }
    Ok(text)
}

fn failure_told(alloc: Global, failure: Failure) -> Result<Bytes, RowFault> {
    match failure {
        Failure::Stuck(atoms) => stuck_told(alloc, atoms),
        Failure::Wide => told(alloc, "Wide"),
        Failure::Large => told(alloc, "Large"),
        Failure::Budget => told(alloc, "Budget"),
        Failure::ManyLeaves => told(alloc, "ManyLeaves"),
    }
}

fn stuck_told(alloc: Global, atoms: StuckAtoms) -> Result<Bytes, RowFault> {
    let mut text = Bytes::new(alloc);
    for stuck in atoms {
        add_apart(&mut text, b", ", symbol_name(stuck.symbol)?.as_bytes())?;
        text.extend(b" in ")?;
        text.extend(shown(alloc, &Formula::Atom(stuck.atom))?.as_slice())?;
    }
    Ok(text)
}
