//! Whether lowering and writing keep the points that meet a claim, at some points.

use crate::fault::RowFault;
use crate::formula_texts::written;
use crate::formulas::of_claim;
use crate::pieces::{alone, claim, symbols};
use crate::telling::{numbered, told};
use std::alloc::Global;
use theory_points::{Bytes, Frac, Point};
use theory_poly::{Poly, Term};
use theory_signs::Formula;
use theory_syntax::{Claim, meets_at};

/// Values of x, y and z, each as numerator and denominator.
type Values = [(i64, i64); 3];

const POINTS: [Values; 12] = [
    [(0, 1), (0, 1), (0, 1)],
    [(1, 1), (0, 1), (-1, 1)],
    [(-1, 1), (1, 1), (0, 1)],
    [(1, 2), (1, 2), (1, 2)],
    [(1, 2), (-1, 3), (2, 5)],
    [(-3, 2), (3, 4), (3, 4)],
    [(2, 1), (4, 1), (-4, 1)],
    [(-1, 3), (-1, 3), (1, 27)],
    [(3, 1), (2, 1), (1, 1)],
    [(1, 4), (5, 2), (-5, 2)],
    [(-2, 1), (-2, 1), (8, 1)],
    [(5, 3), (-5, 3), (7, 2)],
];

fn power(value: Frac, exponent: u8) -> Option<Frac> {
    let mut all = Frac::one();
    for _ in 0..exponent {
        all = all.mul(&value)?;
    }
    Some(all)
}

fn term_value(term: &Term, values: &[Frac; 3]) -> Option<Frac> {
    let mut all = Frac::new(i128::from(term.coefficient), 1)?;
    for k in 0..3 {
        all = all.mul(&power(values[k], term.powers[k])?)?;
    }
    Some(all)
}

fn poly_value(poly: &Poly, values: &[Frac; 3]) -> Option<Frac> {
    let mut all = Frac::zero();
    for term in poly.terms() {
        all = all.add(&term_value(term, values)?)?;
    }
    Some(all)
}

/// The truth of a formula by recursion; None where a value passes 2^58.
#[cycle(plain_truth)]
fn truth(formula: &Formula, values: &[Frac; 3]) -> Option<bool> {
    match formula {
        Formula::True => Some(true),
        Formula::False => Some(false),
        Formula::Atom(atom) => { Some(atom.signs().has(poly_value(atom.poly(), values)?.sign())) }
        Formula::And(members) => count_of_true(members, values).map(|n| n == members.len()),
        Formula::Or(members) => count_of_true(members, values).map(|n| n > 0),
    }
}

#[cycle(plain_truth)]
fn count_of_true(members: &[Formula], values: &[Frac; 3]) -> Option<usize> {
    let mut count: usize = 0;
    for member in members {
        if truth(member, values)? {
            count = count.saturating_add(1);
        }
    }
    Some(count)
}

fn fraction(value: (i64, i64)) -> Frac {
    Frac::new(i128::from(value.0), i128::from(value.1)).unwrap_or(Frac::zero())
}

fn fractions(values: &Values) -> [Frac; 3] {
    [
        fraction(values[0]),
        fraction(values[1]),
        fraction(values[2]),
    ]
}

fn point(alloc: Global, values: &[Frac; 3]) -> Result<Point, RowFault> {
    let mut point = Point::new(alloc);
    for (name, value) in symbols(alloc)?.as_slice().iter().zip(values) {
        point.set(name.copy(alloc)?, *value)?;
    }
    Ok(point)
}

/// The first of the points at which the formula isn't true exactly where the claim is met.
fn difference(alloc: Global, formula: &Formula, claim: Claim) -> Result<Option<usize>, RowFault> {
    let sentence = alone(alloc, claim)?;
    for (k, values) in POINTS.iter().enumerate() {
        let values = fractions(values);
        let found = truth(formula, &values);
        let wanted = meets_at(&sentence, &point(alloc, &values)?).ok();
        if found.is_none() || found != wanted {
            return Ok(Some(k));
        }
    }
    Ok(None)
}

/// Whether the formula of a claim, and what is written for it, are true where the claim is met.
pub fn kept(alloc: Global, field: &str) -> Result<Bytes, RowFault> {
    let claim = claim(alloc, field)?;
    let formula = of_claim(alloc, claim.copy(alloc)?)?;
    if let Some(place) = difference(alloc, &formula, claim)? {
        return numbered(alloc, "lowered otherwise at point", place as i128);
    }
    match difference(alloc, &formula, written(alloc, &formula)?)? {
        Some(place) => numbered(alloc, "written otherwise at point", place as i128),
        None => told(alloc, "kept"),
    }
}
