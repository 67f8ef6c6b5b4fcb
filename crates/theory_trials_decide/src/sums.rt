//! Sums of terms of degree 2 at most, and their values.

use crate::places::Place;

/// A coefficient times two factors: each is a symbol from 0, or the number 1.
#[derive(Clone, Copy, Debug)]
pub struct Term {
    pub coefficient: i64,
    pub first: Option<u8>,
    pub second: Option<u8>,
}

/// Six terms, of which those with the coefficient 0 are left out.
pub type Sum = [Term; 6];

pub const NOTHING: Sum = [Term {
    coefficient: 0,
    first: None,
    second: None,
}; 6];

/// The top of a factor over the bottom of the place.
fn top(factor: Option<u8>, place: &Place) -> i128 {
    match factor {
        Some(x) => place.tops[(x % 4) as usize],
        None => place.bottom,
    }
}

/// The value times the square of the bottom; None where it doesn't fit.
fn term_value(term: &Term, place: &Place) -> Option<i128> {
    i128::from(term.coefficient)
        .checked_mul(top(term.first, place))?
        .checked_mul(top(term.second, place))
}

/// The value of a sum times the square of the bottom; None where it doesn't fit.
pub fn value(sum: &Sum, place: &Place) -> Option<i128> {
    let mut all: i128 = 0;
    for term in sum {
        all = all.checked_add(term_value(term, place)?)?;
    }
    Some(all)
}

/// A multiple of the first three terms of one sum, with one of the first three of another.
pub fn combined(a: i64, first: &Sum, b: i64, second: &Sum) -> Sum {
    let mut all = NOTHING;
    for k in 0..3 {
        all[k] = multiple(a, &first[k]);
        all[k + 3] = multiple(b, &second[k]);
    }
    all
}

fn multiple(n: i64, term: &Term) -> Term {
    Term {
        coefficient: term.coefficient.saturating_mul(n),
        first: term.first,
        second: term.second,
    }
}
