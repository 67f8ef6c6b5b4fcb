//! Which call a row's first word names.

use crate::fault::RowFault;
use crate::{branching, conditions, formulas, grid, polynomials, quotients};
use std::alloc::Global;
use theory_points::Bytes;

/// The field at a place from 0; empty where there is none.
pub fn field<'a>(given: &[&'a str], place: usize) -> &'a str {
    match given.get(place) {
        Some(field) => field,
        None => "",
    }
}

/// The answer of a call on polynomials or formulas; None for any other word.
pub fn answer(alloc: Global, call: &str, given: &[&str]) -> Option<Result<Bytes, RowFault>> {
    let first = field(given, 0);
    let second = field(given, 1);
    let third = field(given, 2);
    Some(match call {
        "lower" | "lowers" | "keeps" | "condition" | "formula" | "negate" | "simplify" | "linear" =>
            of_formula(alloc, call, first, second),
        "test_points" => branching::points(alloc, first, second),
        "substitute" => branching::substituted(alloc, first, second, third),
        "branches" => branching::branches(alloc, first, second),
        "branches_at" => branching::branches_at(alloc, first, second, third),
        "product"
        | "cross"
        | "restrict"
        | "canonical"
        | "split"
        | "copy"
        | "degree"
        | "quotient"
        | "combine_quotients" => of_polynomial(alloc, call, given),
        _ => return None,
    })
}

fn of_formula(alloc: Global, call: &str, first: &str, second: &str) -> Result<Bytes, RowFault> {
    match call {
        "lower" => formulas::lowered_sentence(alloc, first),
        "lowers" => formulas::is_lowered(alloc, first),
        "keeps" => grid::kept(alloc, first),
        "condition" => conditions::condition(alloc, first, second),
        "formula" => conditions::as_written(alloc, first),
        "negate" => conditions::negated(alloc, first),
        "simplify" => conditions::simplified(alloc, first),
        _ => conditions::linear(alloc, first, second),
    }
}

fn of_polynomial(alloc: Global, call: &str, given: &[&str]) -> Result<Bytes, RowFault> {
    let first = field(given, 0);
    let second = field(given, 1);
    let third = field(given, 2);
    let fourth = field(given, 3);
    match call {
        "product" => polynomials::product(alloc, first, second),
        "cross" => polynomials::cross(alloc, first, second, third, fourth),
        "restrict" => polynomials::restricted(alloc, first, second),
        "canonical" => polynomials::canonical(alloc, first),
        "split" => polynomials::split(alloc, first, second),
        "copy" => polynomials::copied(alloc, first),
        "degree" => polynomials::degree(alloc, first, second),
        "quotient" => quotients::reduced(alloc, first, second),
        _ => {
            let fifth = field(given, 4);
            quotients::combined(alloc, third, (first, second), (fourth, fifth))
        }
    }
}
