//! Sentences as the plain program has them, and whether a place meets one.

use crate::conditions::{Condition, is_defined, is_true};
use crate::places::{Place, grid_place, grid_size};

/// How two conditions are joined.
#[derive(Clone, Copy, Debug, PartialEq, Eq)]
pub enum Joint {
    And,
    Or,
    Implies,
    Iff,
    NotAnd,
    Neither,
}

/// One condition, which is to be true or false, or two that are joined.
#[derive(Clone, Copy, Debug)]
pub enum Conjunct {
    One(bool, Condition),
    Two(Joint, Condition, Condition),
}

/// Conjuncts in two to four symbols.
#[derive(Drop)]
pub struct Plain {
    pub count: u32,
    pub conjuncts: Vec<Conjunct>,
}

fn joined(joint: Joint, a: bool, b: bool) -> bool {
    match joint {
        Joint::And => a & b,
        Joint::Or => a | b,
        Joint::Implies => !a | b,
        Joint::Iff => a == b,
        Joint::NotAnd => !(a & b),
        Joint::Neither => !(a | b),
    }
}

/// Whether a conjunct is true and no divisor in it is 0; None where a value doesn't fit.
pub fn stands(conjunct: &Conjunct, place: &Place) -> Option<bool> {
    match conjunct {
        Conjunct::One(wanted, a) => Some(is_defined(a, place)? & (is_true(a, place)? == *wanted)),
        Conjunct::Two(joint, a, b) => {
            let defined = is_defined(a, place)? & is_defined(b, place)?;
            Some(defined & joined(*joint, is_true(a, place)?, is_true(b, place)?))
        }
    }
}

/// Whether each conjunct stands; none is left out.
pub fn meets(plain: &Plain, place: &Place) -> Option<bool> {
    let mut all = true;
    for conjunct in &plain.conjuncts {
        all &= stands(conjunct, place)?;
    }
    Some(all)
}

/// The first place of the grid that meets the conjuncts, of all of its places.
pub fn first_place(plain: &Plain) -> Option<u32> {
    for number in 0..grid_size(plain.count) {
        if meets(plain, &grid_place(plain.count, number)) != Some(false) {
            return Some(number);
        }
    }
    None
}
