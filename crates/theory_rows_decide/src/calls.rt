//! Which call a row's first word names.

use crate::{choices, halves, searches};
use std::alloc::Global;
use theory_points::Bytes;
use theory_rows_method::calls::field;
use theory_rows_method::fault::RowFault;
use theory_search::Policies;

/// The answer of a call on orders, searches or halves; None for any other word.
pub fn answer(
    alloc: Global,
    policies: &Policies,
    call: &str,
    given: &[&str],
) -> Option<Result<Bytes, RowFault>> {
    let first = field(given, 0);
    let second = field(given, 1);
    Some(match call {
        "halves" => halves::by_orders(alloc, policies, given),
        "search" => searches::searched(alloc, policies, first, second),
        "leaves" => searches::leaves_told(alloc, policies, first, second, field(given, 2)),
        "simplify_signed" => searches::simplified(alloc, first),
        "candidates" => choices::candidates_told(alloc, first),
        "place" => choices::placed(alloc, policies, first, second),
        _ => return None,
    })
}
