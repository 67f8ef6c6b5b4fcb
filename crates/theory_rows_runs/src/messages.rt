//! The texts of errors.

use std::alloc::{AllocError, Global};
use theory_edge::{EndFault, Failed};
use theory_lower::LowerFault;
use theory_model::{EditFault, ModelFault, ModelKind};
use theory_points::{Bytes, Limit, NoMemory, Wide};
use theory_rows_method::fault::RowFault;
use theory_rows_method::telling::{add_apart, told};
use theory_text::{TextError, TextKind};
use theory_words::WordsFault;

/// The text of an error.
pub fn message(alloc: Global, error: &str) -> Result<Bytes, RowFault> {
    match text_of(alloc, error) {
        Some(text) => told(alloc, text?.as_str()),
        None => Err(RowFault::Unreadable),
    }
}

fn text_of(alloc: Global, error: &str) -> Option<Result<String, AllocError>> {
    Some(match error {
        "NoMemory" => NoMemory.to_string(alloc),
        "Wide" => Wide.to_string(alloc),
        "Limit::Wide" => Limit::Wide.to_string(alloc),
        "Limit::Memory" => Limit::from(NoMemory).to_string(alloc),
        "EndFault::Failed" => EndFault::Failed.to_string(alloc),
        "EndFault::Memory" => EndFault::from(NoMemory).to_string(alloc),
        "Failed" => Failed.to_string(alloc),
        "LowerFault::Large" => LowerFault::Large.to_string(alloc),
        "LowerFault::Wide" => LowerFault::Wide.to_string(alloc),
        "LowerFault::Memory" => LowerFault::Memory.to_string(alloc),
        "WordsFault::NoCommand" => WordsFault::NoCommand.to_string(alloc),
        "WordsFault::NoMemory" => WordsFault::NoMemory.to_string(alloc),
        _ => return of_edit(alloc, error),
    })
}

fn of_edit(alloc: Global, error: &str) -> Option<Result<String, AllocError>> {
    let kind = ModelKind::KeyTwice;
    Some(match error {
        "EditFault::UnknownKey" => EditFault::UnknownKey(1).to_string(alloc),
        "EditFault::ModelLine" => EditFault::ModelLine(2).to_string(alloc),
        "EditFault::After" => EditFault::After(ModelFault { kind, at: 3 }).to_string(alloc),
        "EditFault::Memory" => EditFault::Memory.to_string(alloc),
        _ => return None,
    })
}

const TEXT_KINDS: [TextKind; 9] = [
    TextKind::TooLong,
    TextKind::NotUtf8,
    TextKind::BadToken,
    TextKind::Unexpected,
    TextKind::LiteralWide,
    TextKind::ZeroBelow,
    TextKind::Exponent,
    TextKind::Deep,
    TextKind::Memory,
];

const MODEL_KINDS: [ModelKind; 9] = [
    ModelKind::ModelLine,
    ModelKind::KeyTwice,
    ModelKind::UnknownName,
    ModelKind::BadArgument,
    ModelKind::NoShift,
    ModelKind::NotParam,
    ModelKind::TooManySymbols,
    ModelKind::TooManyLines,
    ModelKind::Memory,
];

/// The texts of faults of a text or of a model, a kind each.
pub fn kinds(alloc: Global, of: &str) -> Result<Bytes, RowFault> {
    match of {
        "texts" => text_kinds(alloc),
        "models" => model_kinds(alloc),
        _ => Err(RowFault::Unreadable),
    }
}

fn text_kinds(alloc: Global) -> Result<Bytes, RowFault> {
    let mut text = Bytes::new(alloc);
    for kind in TEXT_KINDS {
        let error = TextError {
            kind,
            line: 3,
            column: 13,
        };
        add_apart(&mut text, b", ", error.to_string(alloc)?.as_bytes())?;
    }
    Ok(text)
}

fn model_kinds(alloc: Global) -> Result<Bytes, RowFault> {
    let mut text = Bytes::new(alloc);
    for kind in MODEL_KINDS {
        let fault = ModelFault { kind, at: 3 };
        add_apart(&mut text, b", ", fault.to_string(alloc)?.as_bytes())?;
    }
    Ok(text)
}
