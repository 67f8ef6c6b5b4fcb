//! Which call a row's first word names.

use crate::{changing, lists, long, models, postfix, reading, statics, tokens, writing};
use std::alloc::Global;
use theory_points::Bytes;
use theory_rows_decide::calls as deciding_calls;
use theory_rows_method::fault::RowFault;
use theory_rows_method::{calls, pieces};
use theory_rows_runs::escapes::bytes_of;
use theory_rows_runs::{calls as run_calls, runs};
use theory_search::Policies;

/// The answer of a call.
pub fn answer(
    alloc: Global,
    policies: &Policies,
    call: &str,
    given: &[&str],
) -> Result<Bytes, RowFault> {
    if let Some(told) = calls::answer(alloc, call, given) {
        return told;
    }
    if let Some(told) = deciding_calls::answer(alloc, policies, call, given) {
        return told;
    }
    if let Some(told) = run_calls::answer(alloc, policies, call, given) {
        return told;
    }
    of_text(alloc, policies, call, given)
}

/// Calls on expressions and claims.
fn of_text(
    alloc: Global,
    policies: &Policies,
    call: &str,
    given: &[&str],
) -> Result<Bytes, RowFault> {
    let first = calls::field(given, 0);
    let second = calls::field(given, 1);
    match call {
        "expression" => writing::printed_expression(alloc, first),
        "claim" => writing::printed_claim(alloc, first),
        "printed_as" => writing::printed_as(alloc, first),
        "read_as" => writing::read_as(alloc, first, second),
        "list" => lists::printed(alloc, first),
        "chain" => postfix::chain(alloc, first, pieces::small(second)?),
        "truth" => writing::truth(alloc, first, second),
        "met" => writing::met(alloc, first, second),
        "series" => series(alloc, policies, first, given),
        _ => of_bytes(
            alloc,
            policies,
            call,
            bytes_of(alloc, first)?.as_slice(),
            second,
        ),
    }
}

/// A call on bytes that are told by their repeats.
fn series(
    alloc: Global,
    policies: &Policies,
    call: &str,
    given: &[&str],
) -> Result<Bytes, RowFault> {
    let bytes = long::series(alloc, given)?;
    of_bytes(alloc, policies, call, bytes.as_slice(), "")
}

/// Calls on bytes.
fn of_bytes(
    alloc: Global,
    policies: &Policies,
    call: &str,
    bytes: &[u8],
    second: &str,
) -> Result<Bytes, RowFault> {
    match call {
        "check" => runs::checked(alloc, policies, bytes),
        "tokens" => tokens::tokens(alloc, bytes),
        "parsed" => tokens::parsed(alloc, bytes),
        "parsed_edit" => tokens::parsed_edit(alloc, bytes),
        "line" => reading::line(alloc, bytes),
        "print" => reading::printed_twice(alloc, bytes),
        "copied" => reading::copied(alloc, bytes),
        "divides" => reading::divides(alloc, bytes),
        "text" => reading::text(alloc, bytes),
        "edits" => reading::edits(alloc, bytes),
        "model" => models::judged(alloc, bytes),
        "symbols" => models::listed(alloc, bytes, second),
        "derivative" => statics::derivative(alloc, bytes, second),
        "edit" => changing::changed(alloc, bytes, bytes_of(alloc, second)?.as_slice()),
        _ => Err(RowFault::Unreadable),
    }
}
