//! Sentences that are made from a number by a fixed rule.

use crate::conditions::{Condition, against_zero, order};
use crate::conjuncts::{Conjunct, Joint, Plain};
use crate::places::{Place, grid_place, grid_size};
use crate::source::Source;
use crate::sums::{NOTHING, Sum, Term, combined};
use std::alloc::Global;
use std::cmp::Ordering;
use theory_meaning::Rel;
use theory_points::NoMemory;

/// Which terms and quotients may stand in a sentence.
#[derive(Clone, Copy, Debug, PartialEq, Eq)]
enum Family {
    /// Terms of one symbol.
    Linear,
    /// And products of two symbols.
    Products,
    /// And squares and quotients.
    Squares,
}

const COEFFICIENTS: [i64; 8] = [1, -1, 2, -2, 1, -1, 3, -3];

const CONSTANTS: [i64; 6] = [0, 1, -1, 2, -3, 0];

const RELS: [Rel; 6] = [Rel::Eq, Rel::Ne, Rel::Lt, Rel::Le, Rel::Gt, Rel::Ge];

/// The second factor of a term; among products another symbol than the first.
fn second_factor(source: &mut Source, family: Family, first: u32, count: u32) -> Option<u8> {
    let other = other_symbol(source, first, count);
    match (family, source.below(4)) {
        (Family::Linear, _) => None,
        (_, 0) => Some(other),
        (Family::Squares, 1) => Some(symbol(first)),
        _ => None,
    }
}

fn other_symbol(source: &mut Source, first: u32, count: u32) -> u8 {
    let step = source.below(count.saturating_sub(1)).saturating_add(1);
    let other = first.saturating_add(step).checked_rem(count);
    symbol(other.unwrap_or(0))
}

fn symbol(number: u32) -> u8 {
    (number % 4) as u8
}

fn term(source: &mut Source, family: Family, first: u32, count: u32) -> Term {
    Term {
        coefficient: COEFFICIENTS[(source.next() % 8) as usize],
        first: Some(symbol(first)),
        second: second_factor(source, family, first, count),
    }
}

fn constant(source: &mut Source) -> Term {
    Term {
        coefficient: CONSTANTS[(source.next() % 6) as usize],
        first: None,
        second: None,
    }
}

/// Two terms with different first symbols, and a number.
fn sum(source: &mut Source, family: Family, count: u32) -> Sum {
    let first = source.below(count);
    let second = u32::from(other_symbol(source, first, count));
    let mut all = NOTHING;
    all[0] = term(source, family, first, count);
    all[1] = term(source, family, second, count);
    all[2] = constant(source);
    all
}

/// A number, and at times a term of one symbol before it.
fn side(source: &mut Source, count: u32) -> Sum {
    let mut all = NOTHING;
    all[0] = constant(source);
    if source.below(4) == 0 {
        let first = source.below(count);
        all[1] = term(source, Family::Linear, first, count);
    }
    all
}

/// Among squares at times a symbol and a number.
fn divisor(source: &mut Source, family: Family, count: u32) -> Option<Sum> {
    if family != Family::Squares || source.below(4) != 0 {
        return None;
    }
    let mut all = NOTHING;
    let first = source.below(count);
    all[0] = term(source, Family::Linear, first, count);
    all[1] = constant(source);
    Some(all)
}

fn condition(source: &mut Source, family: Family, count: u32) -> Condition {
    let left = sum(source, family, count);
    let below = divisor(source, family, count);
    let right = side(source, count);
    let rel = RELS[(source.next() % 6) as usize];
    Condition {
        left,
        below,
        rel,
        right,
    }
}

/// A relation that holds of two values in this order.
fn rel_of(number: u32, order: Ordering) -> Rel {
    let place = (number % 3) as usize;
    match order {
        Ordering::Less => [Rel::Lt, Rel::Le, Rel::Ne][place],
        Ordering::Equal => [Rel::Eq, Rel::Le, Rel::Ge][place],
        Ordering::Greater => [Rel::Gt, Rel::Ge, Rel::Ne][place],
    }
}

fn complement(rel: Rel) -> Rel {
    match rel {
        Rel::Eq => Rel::Ne,
        Rel::Ne => Rel::Eq,
        Rel::Lt => Rel::Ge,
        Rel::Le => Rel::Gt,
        Rel::Gt => Rel::Le,
        Rel::Ge => Rel::Lt,
    }
}

/// The condition with a relation by which it is true, or false, at a place.
fn turned(source: &mut Source, condition: Condition, place: &Place, truth: bool) -> Condition {
    let found = order(&condition, place).unwrap_or(Ordering::Equal);
    let rel = rel_of(source.next(), found);
    with_rel(condition, if truth { rel } else { complement(rel) })
}

fn with_rel(condition: Condition, rel: Rel) -> Condition {
    let mut turned = condition;
    turned.rel = rel;
    turned
}

/// Where a conjunct is to stand, if that is given.
type Aim = Option<Place>;

/// A condition; where there is an aim, one that has this truth there.
fn aimed(source: &mut Source, family: Family, count: u32, aim: &Aim, truth: bool) -> Condition {
    let free = condition(source, family, count);
    match aim {
        Some(place) => turned(source, free, place, truth),
        None => free,
    }
}

/// Two joined conditions, by the truth of both.
fn pair(source: &mut Source, family: Family, count: u32, aim: &Aim, joint: Joint) -> Conjunct {
    let truth = joint != Joint::NotAnd && joint != Joint::Neither;
    let first = aimed(source, family, count, aim, truth);
    let second = aimed(source, family, count, aim, truth);
    Conjunct::Two(joint, first, second)
}

fn conjunct(source: &mut Source, family: Family, count: u32, aim: &Aim) -> Conjunct {
    match source.below(12) {
        0 => pair(source, family, count, aim, Joint::And),
        1 | 2 => pair(source, family, count, aim, Joint::Or),
        3 => pair(source, family, count, aim, Joint::Implies),
        4 => pair(source, family, count, aim, Joint::Iff),
        5 => pair(source, family, count, aim, Joint::NotAnd),
        6 => pair(source, family, count, aim, Joint::Neither),
        7 => Conjunct::One(false, aimed(source, family, count, aim, false)),
        _ => Conjunct::One(true, aimed(source, family, count, aim, true)),
    }
}

fn push(conjuncts: &mut Vec<Conjunct>, conjunct: Conjunct) -> Result<(), NoMemory> {
    conjuncts.push(conjunct)?;
    Ok(())
}

/// Two to five conjuncts, which all stand at the aim, if there is one.
fn by_aim(alloc: Global, seed: u32, family: Family, aim: &Aim) -> Result<Plain, NoMemory> {
    let mut source = Source::new(seed);
    let count = symbols(seed);
    let mut conjuncts = Vec::new(alloc);
    for _ in 0..2 + source.next() % 4 {
        push(&mut conjuncts, conjunct(&mut source, family, count, aim))?;
    }
    Ok(Plain { count, conjuncts })
}

/// P is at most 0, Q is below 0 or another condition holds, which doesn't, and a multiple of P and
/// one of Q add up to 0 or more: no point meets these.
fn contradiction(alloc: Global, seed: u32, family: Family) -> Result<Plain, NoMemory> {
    let mut source = Source::new(seed);
    let count = symbols(seed);
    let p = sum(&mut source, family, count);
    let q = sum(&mut source, family, count);
    let other = condition(&mut source, family, count);
    let a = i64::from(source.below(3)).saturating_add(1);
    let b = i64::from(source.below(3)).saturating_add(1);
    let mut conjuncts = Vec::new(alloc);
    let low = against_zero(q, Rel::Lt);
    push(
        &mut conjuncts,
        Conjunct::One(false, against_zero(p, Rel::Gt)),
    )?;
    push(&mut conjuncts, Conjunct::Two(Joint::Or, low, other))?;
    push(&mut conjuncts, Conjunct::One(false, other))?;
    let both = combined(a, &p, b, &q);
    push(
        &mut conjuncts,
        Conjunct::One(true, against_zero(both, Rel::Ge)),
    )?;
    Ok(Plain { count, conjuncts })
}

/// The squares of the symbols add up to a number above 0, and a linear condition holds.
fn sphere(alloc: Global, seed: u32) -> Result<Plain, NoMemory> {
    let mut source = Source::new(seed);
    let count = symbols(seed);
    let mut conjuncts = Vec::new(alloc);
    let squares = Condition {
        left: squares(count),
        below: None,
        rel: Rel::Eq,
        right: number(1 + i64::from(source.below(3))),
    };
    push(&mut conjuncts, Conjunct::One(true, squares))?;
    let free = condition(&mut source, Family::Linear, count);
    push(&mut conjuncts, Conjunct::One(true, free))?;
    Ok(Plain { count, conjuncts })
}

fn squares(count: u32) -> Sum {
    let mut all = NOTHING;
    for k in 0..4 {
        if k < count {
            let square = Some(symbol(k));
            all[k as usize] = Term {
                coefficient: 1,
                first: square,
                second: square,
            };
        }
    }
    all
}

fn number(n: i64) -> Sum {
    let mut all = NOTHING;
    all[0] = Term {
        coefficient: n,
        first: None,
        second: None,
    };
    all
}

fn symbols(seed: u32) -> u32 {
    2 + seed / 6 % 3
}

fn aim(seed: u32) -> Aim {
    let count = symbols(seed);
    let mut source = Source::new(seed.wrapping_add(1_000));
    Some(grid_place(count, source.below(grid_size(count))))
}

/// What is known of a made sentence.
#[derive(Clone, Copy, Debug, PartialEq, Eq)]
pub enum Known {
    /// No point meets it, and each symbol is linear on its own.
    NowhereLinear,
    /// A place of the grid meets it, and each symbol is linear on its own.
    SomewhereLinear,
    /// No point meets it.
    Nowhere,
    /// A place of the grid meets it.
    Somewhere,
    /// Each symbol stands in a square, in an equation that is a conjunct.
    Squared,
    /// Nothing.
    Free,
}

pub fn knowledge(seed: u32) -> Known {
    match seed % 6 {
        0 => Known::NowhereLinear,
        1 => Known::SomewhereLinear,
        2 => Known::Nowhere,
        3 => Known::Somewhere,
        4 if seed / 6 % 2 == 0 => Known::Squared,
        _ => Known::Free,
    }
}

/// The sentence of a number, by what is known of it.
pub fn made(alloc: Global, seed: u32) -> Result<Plain, NoMemory> {
    match knowledge(seed) {
        Known::NowhereLinear => contradiction(alloc, seed, Family::Linear),
        Known::SomewhereLinear => by_aim(alloc, seed, Family::Linear, &aim(seed)),
        Known::Nowhere => contradiction(alloc, seed, Family::Products),
        Known::Somewhere => by_aim(alloc, seed, Family::Products, &aim(seed)),
        Known::Squared => sphere(alloc, seed),
        Known::Free if seed % 6 == 4 => by_aim(alloc, seed, Family::Squares, &None),
        Known::Free => by_aim(alloc, seed, Family::Products, &None),
    }
}
