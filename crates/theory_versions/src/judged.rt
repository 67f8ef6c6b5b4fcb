ghost use Rattle.std.specs.Prelude.{◌≡◌, ◌<◌, length, IfOk};
ghost use Rattle.theory_meaning.specs.Edit.{lines_alone};
ghost use Rattle.theory_grammar.specs.Printed.{text_of};
ghost use Rattle.theory_syntax.specs.Plain.{lines_of};
ghost use Rattle.theory_versions.specs.Entries.{entry_of};
ghost use Rattle.theory_versions.specs.Made.{IsMadeOf, IsGrown};

use crate::entry::Entry;
use std::alloc::Global;
use theory_model::{Model, text_of};
use theory_points::{Bytes, Name, NoMemory};
use theory_syntax::Numbered;
use theory_text::print_line;

/// The greatest number of bytes that are counted.
const MOST_BYTES: u128 = 67_108_864;

/// The version that a change made.
#[derive(Drop)]
pub struct Made {
    pub model: Name,
    pub version: u32,
}

/// What the checks of a change come to, where none refuses it.
#[derive(Drop)]
pub enum Judged {
    /// The same request made this version earlier.
    Repetition(Made),
    /// A version more, and the bytes that are counted with it.
    Addition(Entry, u64),
}

/// What a version is called.
pub fn name_of(alloc: Global, entry: &Entry) -> Result<Made, NoMemory>
    ensures { IfOk result (IsMadeOf (entry_of entry.now)) }
{
    Ok(Made {
        model: entry.row.model.copy(alloc)?,
        version: entry.row.version,
    })
}

/// The bytes that are counted with this version more, where they don't pass the limit.
pub fn grown(alloc: Global, size: u64, entry: &Entry) -> Result<Option<u64>, NoMemory>
    ensures { IfOk result (IsGrown size (entry_of entry.now)) }
{
    let printed = printed(alloc, &entry.model)?;
    let sum = u128::from(size) + entry.row.body.len() as u128 + printed.len() as u128;
    if sum > MOST_BYTES {
        return Ok(None);
    }
    Ok(Some(sum as u64))
}

/// The printed text of a model.
pub fn printed(alloc: Global, model: &Model) -> Result<Bytes, NoMemory>
    ensures some { IfOk result (λ text. 0 < length text) }
    ensures text { IfOk result (λ text. text ≡ text_of (lines_alone (lines_of model.now))) }
{
    printed_lines(alloc, text_of(model).as_slice())
}

fn printed_lines(alloc: Global, lines: &[Numbered]) -> Result<Bytes, NoMemory>
    ensures { IfOk result (λ text. text ≡ text_of (lines_alone (lines_of lines.now))) }
{
    let mut text = Bytes::new(alloc);
    for numbered in lines {
        let line = print_line(alloc, &numbered.line)?;
        text.extend(line.as_slice())?;
        text.extend(b"\n")?;
    }
    Ok(text)
}
