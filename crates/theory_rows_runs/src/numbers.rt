//! Calls on fractions.

use std::alloc::Global;
use std::cmp::Ordering;
use theory_meaning::Sign;
use theory_points::{Bytes, Frac, simplest_between, whole_above, whole_below};
use theory_rows_method::fault::RowFault;
use theory_rows_method::pieces::{frac, whole};
use theory_rows_method::telling::{add_whole, fraction, told};

/// The fraction as it is printed, or none.
fn answer(alloc: Global, found: Option<Frac>) -> Result<Bytes, RowFault> {
    match found {
        Some(value) => fraction(alloc, &value),
        None => told(alloc, "none"),
    }
}

/// The fraction of two whole numbers.
pub fn made(alloc: Global, top: &str, bottom: &str) -> Result<Bytes, RowFault> {
    answer(alloc, Frac::new(whole(top)?, whole(bottom)?))
}

/// A sum, a difference or a product, by its sign.
pub fn combined(alloc: Global, a: &str, sign: &str, b: &str) -> Result<Bytes, RowFault> {
    let (a, b) = (frac(a)?, frac(b)?);
    match sign {
        "+" => answer(alloc, a.add(&b)),
        "-" => answer(alloc, a.sub(&b)),
        "*" => answer(alloc, a.mul(&b)),
        _ => Err(RowFault::Unreadable),
    }
}

pub fn opposite(alloc: Global, a: &str) -> Result<Bytes, RowFault> {
    fraction(alloc, &frac(a)?.neg())
}

/// How the first value stands to the second.
pub fn compared(alloc: Global, a: &str, b: &str) -> Result<Bytes, RowFault> {
    told(
        alloc,
        match frac(a)?.compare(&frac(b)?) {
            Ordering::Less => "<",
            Ordering::Equal => "=",
            Ordering::Greater => ">",
        },
    )
}

pub fn sign(alloc: Global, a: &str) -> Result<Bytes, RowFault> {
    told(
        alloc,
        match frac(a)?.sign() {
            Sign::Minus => "-",
            Sign::Zero => "0",
            Sign::Plus => "+",
        },
    )
}

/// The next whole number below.
pub fn below(alloc: Global, a: &str) -> Result<Bytes, RowFault> {
    let mut text = Bytes::new(alloc);
    add_whole(alloc, &mut text, i128::from(whole_below(&frac(a)?)))?;
    Ok(text)
}

/// The next whole number above.
pub fn above(alloc: Global, a: &str) -> Result<Bytes, RowFault> {
    let mut text = Bytes::new(alloc);
    add_whole(alloc, &mut text, i128::from(whole_above(&frac(a)?)))?;
    Ok(text)
}

/// The simplest fraction between two, as numerator over denominator, also past the bound.
pub fn between(alloc: Global, lo: &str, hi: &str) -> Result<Bytes, RowFault> {
    let (lo, hi) = (frac(lo)?, frac(hi)?);
    let (top, bottom) = match lo.compare(&hi) {
        Ordering::Less => simplest_between(&lo, &hi),
        _ => return Err(RowFault::Unreadable),
    };
    let mut text = Bytes::new(alloc);
    add_whole(alloc, &mut text, i128::from(top))?;
    text.extend(b"/")?;
    add_whole(alloc, &mut text, i128::from(bottom))?;
    Ok(text)
}
