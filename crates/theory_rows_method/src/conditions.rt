//! Calls on formulas: sign conditions, negation, simplification, linearity.

use crate::fault::RowFault;
use crate::formula_texts::{printed, shown};
use crate::formulas::formula;
use crate::pieces::{signs, symbol};
use crate::polynomials::polynomial;
use crate::telling::yes_or_no;
use std::alloc::Global;
use theory_points::Bytes;
use theory_signs::{make_atom, negate};
use theory_simplify::simplify;
use theory_subst::is_linear;

/// The condition that a polynomial is in a relation to 0.
pub fn condition(alloc: Global, poly: &str, relation: &str) -> Result<Bytes, RowFault> {
    let poly = polynomial(alloc, poly)?;
    let made = make_atom(alloc, &poly, signs(relation)?)?;
    shown(alloc, &made)
}

/// The claim that is written for a formula, which hides lists of one member or of none.
pub fn as_written(alloc: Global, field: &str) -> Result<Bytes, RowFault> {
    printed(alloc, &formula(alloc, field)?)
}

pub fn negated(alloc: Global, field: &str) -> Result<Bytes, RowFault> {
    let formula = formula(alloc, field)?;
    shown(alloc, &negate(alloc, &formula)?)
}

pub fn simplified(alloc: Global, field: &str) -> Result<Bytes, RowFault> {
    let formula = formula(alloc, field)?;
    shown(alloc, &simplify(alloc, &formula)?)
}

/// Whether each atom is linear in a symbol.
pub fn linear(alloc: Global, x: &str, field: &str) -> Result<Bytes, RowFault> {
    let x = symbol(x)?;
    let formula = formula(alloc, field)?;
    if x >= 32 {
        return Err(RowFault::Unreadable);
    }
    yes_or_no(alloc, is_linear(x, &formula))
}
