ghost use Rattle.std.specs.Prelude.{◌≡◌, ◌≤◌, length, suc, IfOk};
ghost use Rattle.theory_meaning.specs.ModelFault.{most_lines};
ghost use Rattle.theory_session.specs.Editing.{EditRequest, judge_earlier};
ghost use Rattle.theory_session.specs.Sizes.{most_versions};
ghost use Rattle.theory_syntax.specs.Plain.{lines_of};
ghost use Rattle.theory_versions.specs.Editing.{IsChangedOr, IsEditText, IsEditRefused, IsEarlier};
ghost use Rattle.theory_versions.specs.Entries.{row_of, entry_of};

use crate::edited::EditRefusal;
use crate::entry::Entry;
use crate::judged::{Judged, name_of};
use std::alloc::Global;
use theory_edge::Row;
use theory_model::{EditFault, Model, apply, text_of};
use theory_points::{Bytes, Name, NoMemory};
use theory_text::{TextError, TextKind, read_ops};

/// What is judged where an earlier request had the id, and made this version.
pub fn earlier(alloc: Global, old: &Entry, base: u32, body: &[u8]) -> Result<Judged, EditRefusal>
    ensures { (r : EditRequest) → r.base ≡ base → r.body ≡ body.now →
        IsEarlier (judge_earlier r (entry_of old.now)) (entry_of old.now) result }
{
    if old.row.base != base || old.row.body.as_slice() != body {
        return Err(EditRefusal::IdReused(old.row.version));
    }
    match name_of(alloc, old) {
        Ok(made) => Ok(Judged::Repetition(made)),
        Err(_) => Err(EditRefusal::Memory),
    }
}

/// The model that the operations of a body leave of a model.
pub fn changed(alloc: Global, model: &Model, body: &[u8]) -> Result<Model, EditRefusal>
    ensures { IsChangedOr (lines_of model.now) body.now result }
{
    let ops = match read_ops(alloc, body) {
        Ok(ops) => ops,
        Err(error) => return Err(text_refusal(error)),
    };
    has_few_lines(model);
    match apply(alloc, model, ops.as_slice()) {
        Ok(model) => Ok(model),
        Err(fault) => Err(edit_refusal(fault)),
    }
}

/// A model has few lines, so that 32 bits hold the number of each fault that an edit may have.
fn has_few_lines(model: &Model)
    ensures { length (lines_of model.now) ≤ most_lines }
{
    text_of(model);
}

fn text_refusal(error: TextError) -> EditRefusal
    ensures { IsEditText error result }
{
    match error.kind {
        TextKind::Memory => EditRefusal::Memory,
        _ => EditRefusal::Text(error),
    }
}

fn edit_refusal(fault: EditFault) -> EditRefusal
    ensures { IsEditRefused fault result }
{
    match fault {
        EditFault::Memory => EditRefusal::Memory,
        _ => EditRefusal::Edit(fault),
    }
}

/// The row of the version behind the last one, of this number.
pub fn next_row(
    alloc: Global,
    format: u8,
    model: &Name,
    last: u32,
    id: &Name,
    body: &[u8],
) -> Result<Row, NoMemory>
    requires few { last ≤ most_versions }
    ensures { IfOk result (λ r. row_of r ≡ (record {
      format = format;
      model = model.now;
      version = suc last;
      base = last;
      id = id.now;
      body = body.now;
    })) }
{
    Ok(Row {
        format,
        model: model.copy(alloc)?,
        version: last + 1,
        base: last,
        id: id.copy(alloc)?,
        body: Bytes::from_slice(alloc, body)?,
    })
}
