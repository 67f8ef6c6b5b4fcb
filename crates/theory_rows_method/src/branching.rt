//! Calls of the elimination: test points, substitution, branches.

use crate::fault::RowFault;
use crate::formula_texts::{shown, written};
use crate::formulas::formula;
use crate::pieces::{point, sign, symbol};
use crate::polynomials::{add_polynomial, polynomial};
use crate::telling::{add_apart, told};
use std::alloc::Global;
use theory_meaning::Sign;
use theory_points::{Bytes, Limit};
use theory_poly::Poly;
use theory_signs::Formula;
use theory_subst::{TestPoint, branch, is_linear, substitute, test_points};
use theory_syntax::truth_at;

/// The test points of a symbol in a formula.
pub fn points(alloc: Global, x: &str, field: &str) -> Result<Bytes, RowFault> {
    let x = symbol(x)?;
    let formula = formula(alloc, field)?;
    if x >= 32 || !is_linear(x, &formula) {
        return Err(RowFault::Unreadable);
    }
    let points = test_points(alloc, x, &formula)?;
    let mut text = Bytes::new(alloc);
    for point in &points {
        add_apart(&mut text, b"; ", point_told(alloc, point)?.as_slice())?;
    }
    Ok(text)
}

fn point_told(alloc: Global, point: &TestPoint) -> Result<Bytes, RowFault> {
    match point {
        TestPoint::Infinity => told(alloc, "infinity"),
        TestPoint::Root(slope, base, sign) => line_told(alloc, "root", slope, base, *sign),
        TestPoint::Before(slope, base, sign) => line_told(alloc, "before", slope, base, *sign),
    }
}

/// A word, the slope and the base of a line, and the sign of the slope.
fn line_told(
    alloc: Global,
    word: &str,
    slope: &Poly,
    base: &Poly,
    sign: Sign,
) -> Result<Bytes, RowFault> {
    let mut text = told(alloc, word)?;
    text.extend(b" ")?;
    add_polynomial(alloc, &mut text, slope)?;
    text.extend(b", ")?;
    add_polynomial(alloc, &mut text, base)?;
    text.extend(match sign {
        Sign::Minus => b", -",
        Sign::Zero => b", 0",
        Sign::Plus => b", +",
    })?;
    Ok(text)
}

/// A test point by its word, its slope and base, and the sign of the slope.
fn test_point(
    alloc: Global,
    word: &str,
    slope: &str,
    base: &str,
    of: &str,
) -> Result<TestPoint, RowFault> {
    if word == "infinity" {
        return Ok(TestPoint::Infinity);
    }
    let slope = polynomial(alloc, slope)?;
    let base = polynomial(alloc, base)?;
    match word {
        "root" => Ok(TestPoint::Root(slope, base, sign(of)?)),
        "before" => Ok(TestPoint::Before(slope, base, sign(of)?)),
        _ => Err(RowFault::Unreadable),
    }
}

/// The formula with the symbol at a test point, written as `root 2, -1, +`.
pub fn substituted(alloc: Global, x: &str, at: &str, field: &str) -> Result<Bytes, RowFault> {
    let x = symbol(x)?;
    let (word, line) = at.split_once(' ').unwrap_or((at, ""));
    let (slope, rest) = line.split_once(',').unwrap_or((line, ""));
    let (base, sign) = rest.split_once(',').unwrap_or((rest, ""));
    let point = test_point(alloc, word, slope, base, sign.trim())?;
    let formula = formula(alloc, field)?;
    if x >= 32 || !is_linear(x, &formula) {
        return Err(RowFault::Unreadable);
    }
    match substitute(alloc, x, &formula, &point) {
        Ok(there) => shown(alloc, &there),
        Err(Limit::Wide) => told(alloc, "Wide"),
        Err(Limit::Memory) => Err(RowFault::Memory),
    }
}

/// The k-th branch, if each atom is linear in the symbol.
fn kth(alloc: Global, x: u8, formula: &Formula, k: u32) -> Result<Option<Formula>, RowFault> {
    if x >= 32 || !is_linear(x, formula) {
        return Err(RowFault::Unreadable);
    }
    match branch(alloc, x, formula, k) {
        Ok(found) => Ok(found),
        Err(_) => Err(RowFault::Memory),
    }
}

/// The branches of a symbol in a formula.
pub fn branches(alloc: Global, x: &str, field: &str) -> Result<Bytes, RowFault> {
    let x = symbol(x)?;
    let formula = formula(alloc, field)?;
    let mut text = Bytes::new(alloc);
    for k in 0..64 {
        match kth(alloc, x, &formula, k)? {
            Some(found) => add_apart(&mut text, b"; ", shown(alloc, &found)?.as_slice())?,
            None => return Ok(text),
        }
    }
    Err(RowFault::Unreadable)
}

/// The truth of each branch at a point.
pub fn branches_at(alloc: Global, x: &str, field: &str, at: &str) -> Result<Bytes, RowFault> {
    let x = symbol(x)?;
    let formula = formula(alloc, field)?;
    let mut text = Bytes::new(alloc);
    for k in 0..64 {
        match kth(alloc, x, &formula, k)? {
            Some(found) => add_truth(alloc, &mut text, &found, at)?,
            None => return Ok(text),
        }
    }
    Err(RowFault::Unreadable)
}

fn add_truth(alloc: Global, text: &mut Bytes, formula: &Formula, at: &str) -> Result<(), RowFault> {
    let claim = written(alloc, formula)?;
    match truth_at(&claim, &point(alloc, at)?) {
        Ok(true) => add_apart(text, b"; ", b"true"),
        Ok(false) => add_apart(text, b"; ", b"false"),
        Err(_) => Err(RowFault::Unreadable),
    }
}
