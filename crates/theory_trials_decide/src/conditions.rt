//! Relations between two sums, and their truth by cross products.

use crate::places::Place;
use crate::sums::{NOTHING, Sum, value};
use std::cmp::Ordering;
use theory_meaning::Rel;

/// A sum, or one over another, in a relation to a sum.
#[derive(Clone, Copy, Debug)]
pub struct Condition {
    pub left: Sum,
    pub below: Option<Sum>,
    pub rel: Rel,
    pub right: Sum,
}

/// A sum in a relation to 0.
pub fn against_zero(left: Sum, rel: Rel) -> Condition {
    Condition {
        left,
        below: None,
        rel,
        right: NOTHING,
    }
}

/// Whether the divisor isn't 0; None where a value doesn't fit.
pub fn is_defined(condition: &Condition, place: &Place) -> Option<bool> {
    match &condition.below {
        Some(sum) => Some(value(sum, place)? != 0),
        None => Some(true),
    }
}

/// Whether the relation holds, where the divisor isn't 0; None where a value doesn't fit.
pub fn is_true(condition: &Condition, place: &Place) -> Option<bool> {
    Some(holds(condition.rel, order(condition, place)?))
}

/// How the left side compares with the right one.
pub fn order(condition: &Condition, place: &Place) -> Option<Ordering> {
    let left = value(&condition.left, place)?;
    let right = value(&condition.right, place)?;
    match &condition.below {
        Some(sum) => order_over(left, value(sum, place)?, right, place.bottom),
        None => Some(left.cmp(&right)),
    }
}

/// Left over below against right over the square of the bottom.
fn order_over(left: i128, below: i128, right: i128, bottom: i128) -> Option<Ordering> {
    let crossed_left = left.checked_mul(bottom)?.checked_mul(bottom)?;
    let crossed_right = right.checked_mul(below)?;
    if below < 0 {
        Some(crossed_right.cmp(&crossed_left))
    } else {
        Some(crossed_left.cmp(&crossed_right))
    }
}

fn holds(rel: Rel, order: Ordering) -> bool {
    match rel {
        Rel::Eq => order == Ordering::Equal,
        Rel::Ne => order != Ordering::Equal,
        Rel::Lt => order == Ordering::Less,
        Rel::Le => order != Ordering::Greater,
        Rel::Gt => order == Ordering::Greater,
        Rel::Ge => order != Ordering::Less,
    }
}
