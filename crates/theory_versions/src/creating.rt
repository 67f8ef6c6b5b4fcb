ghost use Rattle.std.specs.Prelude.{◌≡◌, List, IfOk};
ghost use Rattle.theory_session.specs.Create as plain;
ghost use Rattle.theory_session.specs.Creation.{CreateRequest, judge_again, first_entry};
ghost use Rattle.theory_syntax.specs.Plain.{lines_of};
ghost use Rattle.theory_versions.specs.Creating.{IsModelOr, IsTextFault, IsModelFault, IsFirstOr, IsAgain};
ghost use Rattle.theory_versions.specs.Entries.{row_of, entry_of};

use crate::created::CreateFault;
use crate::entry::Entry;
use crate::judged::{Judged, name_of};
use std::alloc::Global;
use theory_edge::Row;
use theory_model::{Model, ModelFault, ModelKind, check, text_of};
use theory_points::{Bytes, Name, NoMemory};
use theory_syntax::{Line, Numbered};
use theory_text::{TextError, TextKind, read_text};

/// Version 1 of the model that a body of this format spells.
pub fn first_entry(alloc: Global, format: u8, id: &Name, body: &[u8]) -> Result<Entry, CreateFault>
    ensures { IsFirstOr format (record { id = id.now; body = body.now }) result }
{
    let model = match model_of(alloc, body) {
        Ok(model) => model,
        Err(fault) => return Err(fault),
    };
    match first_row(alloc, format, &model, id, body) {
        Ok(row) => Ok(Entry { row, model }),
        Err(_) => Err(CreateFault::Memory),
    }
}

/// The model that a body spells.
fn model_of(alloc: Global, body: &[u8]) -> Result<Model, CreateFault>
    ensures { IsModelOr body.now result }
{
    let lines = match read_text(alloc, body) {
        Ok(lines) => lines,
        Err(error) => return Err(text_fault(error)),
    };
    match check(alloc, lines) {
        Ok(model) => Ok(model),
        Err(fault) => Err(model_fault(fault)),
    }
}

fn text_fault(error: TextError) -> CreateFault
    ensures { IsTextFault error result }
{
    match error.kind {
        TextKind::Memory => CreateFault::Memory,
        _ => CreateFault::Text(error),
    }
}

fn model_fault(fault: ModelFault) -> CreateFault
    ensures { IsModelFault fault result }
{
    match fault.kind {
        ModelKind::Memory => CreateFault::Memory,
        _ => CreateFault::Model(fault),
    }
}

fn first_row(
    alloc: Global,
    format: u8,
    model: &Model,
    id: &Name,
    body: &[u8],
) -> Result<Row, NoMemory>
    ensures { IfOk result (λ r. row_of r ≡
        (first_entry format (record { id = id.now; body = body.now }) (lines_of model.now)).row) }
{
    Ok(Row {
        format,
        model: name_in(alloc, text_of(model).as_slice())?,
        version: 1,
        base: 0,
        id: id.copy(alloc)?,
        body: Bytes::from_slice(alloc, body)?,
    })
}

/// The name that the line at the head gives.
fn name_in(alloc: Global, lines: &[Numbered]) -> Result<Name, NoMemory>
    ensures { IfOk result (λ name. name ≡ plain.name_in (lines_of lines.now)) }
{
    if lines.is_empty() {
        return Name::from_slice(alloc, b"");
    }
    match &lines[0].line {
        Line::Model(name) => name.copy(alloc),
        _ => Name::from_slice(alloc, b""),
    }
}

/// What is judged where the model is there, with this version 1.
pub fn again(alloc: Global, old: &Entry, id: &Name, body: &[u8]) -> Result<Judged, CreateFault>
    ensures { IsAgain (judge_again (record { id = id.now; body = body.now }) (entry_of old.now))
        (entry_of old.now) result }
{
    if !old.row.id.is_same(id) {
        return Err(CreateFault::NameTaken);
    }
    if old.row.body.as_slice() != body {
        return Err(CreateFault::IdReused(1));
    }
    match name_of(alloc, old) {
        Ok(made) => Ok(Judged::Repetition(made)),
        Err(_) => Err(CreateFault::Memory),
    }
}
