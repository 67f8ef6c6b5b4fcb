//! The call that changes a model by edits.

use crate::models::{fault, model};
use crate::reading::lines_told;
use std::alloc::Global;
use theory_model::{EditFault, apply, put_identifiers, text_of};
use theory_points::Bytes;
use theory_rows_method::fault::RowFault;
use theory_rows_method::telling::numbered;
use theory_text::read_ops;

/// The lines of a model after edits, or why they are refused.
pub fn changed(alloc: Global, bytes: &[u8], edits: &[u8]) -> Result<Bytes, RowFault> {
    let model = model(alloc, bytes)?;
    let ops = match read_ops(alloc, edits) {
        Ok(ops) => ops,
        Err(_) => return Err(RowFault::Unreadable),
    };
    if !put_identifiers(&ops) {
        return Err(RowFault::Unreadable);
    }
    match apply(alloc, &model, &ops) {
        Ok(model) => lines_told(alloc, text_of(&model)),
        Err(refusal) => refused(alloc, refusal),
    }
}

fn refused(alloc: Global, refusal: EditFault) -> Result<Bytes, RowFault> {
    match refusal {
        EditFault::UnknownKey(place) => numbered(alloc, "UnknownKey", i128::from(place)),
        EditFault::ModelLine(place) => numbered(alloc, "ModelLine", i128::from(place)),
        EditFault::After(found) => {
            let mut text = Bytes::from_slice(alloc, b"After ")?;
            text.extend(fault(alloc, found)?.as_slice())?;
            Ok(text)
        }
        EditFault::Memory => Err(RowFault::Memory),
    }
}
