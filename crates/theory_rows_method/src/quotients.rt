//! Calls on polynomials over a whole number, each written as two fields.

use crate::fault::RowFault;
use crate::pieces::part;
use crate::polynomials::{add_polynomial, polynomial};
use crate::telling::{add_whole, told};
use std::alloc::Global;
use theory_points::{Bytes, Limit};
use theory_poly::RatPoly;

/// The greatest number below.
const W: i64 = 1 << 58;

/// The polynomial over a number from 1 to 2^58.
fn quotient(alloc: Global, poly: &str, below: &str) -> Result<RatPoly, RowFault> {
    let poly = polynomial(alloc, poly)?;
    let below = part(below)?;
    if below < 1 || below > W {
        return Err(RowFault::Unreadable);
    }
    Ok(RatPoly::new(poly, below))
}

fn answer(alloc: Global, found: Result<RatPoly, Limit>) -> Result<Bytes, RowFault> {
    match found {
        Ok(found) => printed(alloc, &found),
        Err(Limit::Wide) => told(alloc, "Wide"),
        Err(Limit::Memory) => Err(RowFault::Memory),
    }
}

fn printed(alloc: Global, found: &RatPoly) -> Result<Bytes, RowFault> {
    let mut text = Bytes::new(alloc);
    add_polynomial(alloc, &mut text, found.top())?;
    text.extend(b" over ")?;
    add_whole(alloc, &mut text, i128::from(found.below()))?;
    Ok(text)
}

/// The lowest form.
pub fn reduced(alloc: Global, poly: &str, below: &str) -> Result<Bytes, RowFault> {
    printed(alloc, &quotient(alloc, poly, below)?)
}

/// A sum, a difference or a product, by its sign.
pub fn combined(
    alloc: Global,
    sign: &str,
    first: (&str, &str),
    second: (&str, &str),
) -> Result<Bytes, RowFault> {
    let first = quotient(alloc, first.0, first.1)?;
    let second = quotient(alloc, second.0, second.1)?;
    match sign {
        "+" => answer(alloc, first.add(alloc, &second)),
        "-" => answer(alloc, first.sub(alloc, &second)),
        "*" => answer(alloc, first.mul(alloc, &second)),
        _ => Err(RowFault::Unreadable),
    }
}
