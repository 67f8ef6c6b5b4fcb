//! A call on derivatives.

use crate::models::model;
use std::alloc::Global;
use theory_points::{Bytes, Name};
use theory_rows_method::fault::RowFault;
use theory_rows_method::pieces::expression;
use theory_statics::total_derivative;
use theory_text::print_expr;

/// The derivative of an expression, behind a parameter of the model of a text and a colon.
pub fn derivative(alloc: Global, bytes: &[u8], field: &str) -> Result<Bytes, RowFault> {
    let model = model(alloc, bytes)?;
    let (shift, expr) = match field.split_once(':') {
        Some((shift, expr)) => (shift, expression(alloc, expr)?),
        None => return Err(RowFault::Unreadable),
    };
    let shift = Name::from_slice(alloc, shift.as_bytes())?;
    let found = total_derivative(alloc, &expr, &shift, &model)?;
    Ok(print_expr(alloc, &found)?)
}
