//! Calls on models: their first fault and listed symbols.

use crate::reading::lines;
use std::alloc::Global;
use theory_model::{Model, ModelFault, ModelKind, check, have_identifiers, kind_name, symbols};
use theory_points::{Bytes, Name};
use theory_rows_method::fault::RowFault;
use theory_rows_method::telling::{add_apart, numbered, told};
use theory_syntax::Lines;

/// The model of lines whose names are identifiers, or its first fault.
pub fn checked(alloc: Global, lines: Lines) -> Result<Result<Model, ModelFault>, RowFault> {
    if !have_identifiers(&lines) {
        return Err(RowFault::Unreadable);
    }
    Ok(check(alloc, lines))
}

/// The model of a text that has no fault.
pub fn model(alloc: Global, bytes: &[u8]) -> Result<Model, RowFault> {
    match checked(alloc, lines(alloc, bytes)?)? {
        Ok(model) => Ok(model),
        Err(_) => Err(RowFault::Unreadable),
    }
}

/// The kind of a fault, and its line.
pub fn fault(alloc: Global, fault: ModelFault) -> Result<Bytes, RowFault> {
    if fault.kind == ModelKind::Memory {
        return Err(RowFault::Memory);
    }
    numbered(alloc, kind_name(fault.kind), i128::from(fault.at))
}

/// Whether a text is a model, or its first fault.
pub fn judged(alloc: Global, bytes: &[u8]) -> Result<Bytes, RowFault> {
    match checked(alloc, lines(alloc, bytes)?)? {
        Ok(_) => told(alloc, "accepted"),
        Err(found) => fault(alloc, found),
    }
}

/// The listed symbols of the claim of a label.
pub fn listed(alloc: Global, bytes: &[u8], label: &str) -> Result<Bytes, RowFault> {
    let model = model(alloc, bytes)?;
    let label = Name::from_slice(alloc, label.as_bytes())?;
    let names = symbols(alloc, &model, &label)?;
    let mut text = Bytes::new(alloc);
    for name in names.as_slice() {
        add_apart(&mut text, b", ", name.as_slice())?;
    }
    Ok(text)
}
