//! Which call a row's first word names.

use crate::escapes::bytes_of;
use crate::{ends, keepers, messages, numbers, runs, slow};
use std::alloc::Global;
use theory_points::Bytes;
use theory_rows_method::calls::field;
use theory_rows_method::fault::RowFault;
use theory_search::Policies;

/// The answer of a call on numbers, ends, runs or errors; None for any other word.
pub fn answer(
    alloc: Global,
    policies: &Policies,
    call: &str,
    given: &[&str],
) -> Option<Result<Bytes, RowFault>> {
    let first = field(given, 0);
    let second = field(given, 1);
    let third = field(given, 2);
    Some(match call {
        "fraction" | "combine" | "opposite" | "compare" | "sign" | "below" | "above" | "between" =>
            of_number(alloc, call, first, second, third),
        "reads" => ends::reads(alloc, first, second),
        "writes" => ends::writes(alloc, first, second, third),
        "sure" => ends::sure(alloc, first, second),
        "keeper" => keepers::keeps(alloc, first, second, third),
        "sure_keeper" => keepers::keeps_surely(alloc, first),
        "fits" => keepers::fits(alloc, first, second, third),
        "run" => run(alloc, policies, given),
        "verdict" => runs::verdict(alloc, first, second),
        "message" => messages::message(alloc, first),
        "kinds" => messages::kinds(alloc, first),
        "slow" => slow::slow_truth(alloc, first, second),
        _ => return None,
    })
}

fn run(alloc: Global, policies: &Policies, given: &[&str]) -> Result<Bytes, RowFault> {
    let text = bytes_of(alloc, field(given, 4))?;
    runs::ended(alloc, policies, given, text.as_slice())
}

fn of_number(
    alloc: Global,
    call: &str,
    first: &str,
    second: &str,
    third: &str,
) -> Result<Bytes, RowFault> {
    match call {
        "fraction" => numbers::made(alloc, first, second),
        "combine" => numbers::combined(alloc, first, second, third),
        "opposite" => numbers::opposite(alloc, first),
        "compare" => numbers::compared(alloc, first, second),
        "sign" => numbers::sign(alloc, first),
        "below" => numbers::below(alloc, first),
        "above" => numbers::above(alloc, first),
        _ => numbers::between(alloc, first, second),
    }
}
