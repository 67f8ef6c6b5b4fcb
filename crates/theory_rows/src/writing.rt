//! Calls on expressions and claims: what they are read as, how they are printed, where they are true.

use crate::postfix;
use std::alloc::Global;
use theory_points::Bytes;
use theory_rows_method::fault::RowFault;
use theory_rows_method::pieces::{claim, expression, point, sentence};
use theory_rows_method::telling::told;
use theory_syntax::{meets_at, truth_at};
use theory_text::{print_claim, print_expr};

pub fn printed_expression(alloc: Global, field: &str) -> Result<Bytes, RowFault> {
    let expr = expression(alloc, field)?;
    Ok(print_expr(alloc, &expr)?)
}

pub fn printed_claim(alloc: Global, field: &str) -> Result<Bytes, RowFault> {
    let claim = claim(alloc, field)?;
    Ok(print_claim(alloc, &claim)?)
}

/// The printed form of a tree that is given with each operation behind its operands.
pub fn printed_as(alloc: Global, field: &str) -> Result<Bytes, RowFault> {
    let expr = postfix::expression(alloc, field)?;
    Ok(print_expr(alloc, &expr)?)
}

/// Whether an expression is read as a tree that is given so, or else how it is printed.
pub fn read_as(alloc: Global, field: &str, tree: &str) -> Result<Bytes, RowFault> {
    let read = printed_expression(alloc, field)?;
    let given = printed_as(alloc, tree)?;
    if read.as_slice() == given.as_slice() {
        told(alloc, "same")
    } else {
        Ok(read)
    }
}

/// The truth of a claim at a point.
pub fn truth(alloc: Global, field: &str, place: &str) -> Result<Bytes, RowFault> {
    let claim = claim(alloc, field)?;
    let place = point(alloc, place)?;
    told(alloc, truth_name(truth_at(&claim, &place).ok()))
}

/// Whether a point meets a sentence.
pub fn met(alloc: Global, field: &str, place: &str) -> Result<Bytes, RowFault> {
    let sentence = sentence(alloc, field)?;
    let place = point(alloc, place)?;
    told(alloc, truth_name(meets_at(&sentence, &place).ok()))
}

fn truth_name(truth: Option<bool>) -> &'static str {
    match truth {
        Some(true) => "true",
        Some(false) => "false",
        None => "Wide",
    }
}
