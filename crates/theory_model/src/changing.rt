ghost use Rattle.std.specs.Prelude.{◌≡◌, ◌+◌, ◌<◌, length, IfOk, IfSome};
ghost use Rattle.theory_meaning.specs.Declarations as declarations;
ghost use Rattle.theory_meaning.specs.Edit as edit;
ghost use Rattle.theory_meaning.specs.Edit.{lines_alone, with_line, PutsIdentifiers};
ghost use Rattle.theory_meaning.specs.ModelFault.{is_key};
ghost use Rattle.theory_syntax.specs.Plain.{line_of, lines_of, op_of, ops_of};
ghost use Rattle.theory_model.specs.Changed.{lent_lines, place_of_line, carried, carried_from, IsEdited, IsAfterFault, AreChanged, IsChanged, IsPut};

use crate::checking::check;
use crate::faults::ModelFault;
use crate::keys::key_of;
use crate::model::{Model, text_of};
use std::alloc::Global;
use std::error::Error;
use std::fmt;
use theory_meaning::ModelKind;
use theory_points::{Name, NoMemory};
use theory_syntax::{Line, Numbered, Op};

/// Why an edit of a model is refused.
#[derive(Clone, Copy, Debug, PartialEq, Eq)]
pub enum EditFault {
    /// No line has the key that this operation, counted from 1, drops.
    UnknownKey(u32),
    /// This operation, counted from 1, puts a model line.
    ModelLine(u32),
    /// The changed lines are no model; their lines are numbered by their place.
    After(ModelFault),
    /// Want of memory.
    Memory,
}

impl fmt::Display for EditFault {
    ghost use Rattle.std.specs.Prelude.{Some};
    ghost use Rattle.theory_model.specs.Message.{message_of};

    ghost output = { λ fault. Some (message_of fault) };

    fn fmt<W: fmt::Write>(&self, f: &mut fmt::Formatter<W>) -> fmt::Result {
        f.write_str(match self {
            EditFault::UnknownKey(_) => "no line has the key to drop",
            EditFault::ModelLine(_) => "a model line is put",
            EditFault::After(_) => "the changed lines are no model",
            EditFault::Memory => "no memory",
        })
    }
}

impl Error for EditFault {}

/// The model whose lines are changed by the operations in their order, and numbered by their place.
pub fn apply(alloc: Global, model: &Model, ops: &[Op]) -> Result<Model, EditFault>
    requires { PutsIdentifiers (ops_of ops.now) }
    ensures { IsEdited (edit.edited (ops_of ops.now) (lines_of model.now)) result }
{
    let lines = text_of(model).as_slice();
    let changed = match changed_lines(alloc, lines, ops) {
        Ok(changed) => changed,
        Err(fault) => return Err(fault),
    };
    let numbered = match numbered_by_place(alloc, &changed) {
        Ok(numbered) => numbered,
        Err(_) => return Err(EditFault::Memory),
    };
    match check(alloc, numbered) {
        Ok(model) => Ok(model),
        Err(fault) => Err(after(fault)),
    }
}

/// Want of memory below is want of memory.
fn after(fault: ModelFault) -> EditFault
    ensures { IsAfterFault fault result }
{
    if fault.kind == ModelKind::Memory {
        EditFault::Memory
    } else {
        EditFault::After(fault)
    }
}

/// The lines after the operations, lent by the model and the operations.
fn changed_lines<'a>(
    alloc: Global,
    lines: &'a [Numbered],
    ops: &'a [Op],
) -> Result<Vec<&'a Line>, EditFault>
    ensures { AreChanged
        (edit.changed_lines 1 (ops_of ops.now) (lines_alone (lines_of lines.now))) result }
{
    let mut changed = match lent(alloc, lines) {
        Ok(changed) => changed,
        Err(_) => return Err(EditFault::Memory),
    };
    for (k, op) in ops.iter().enumerate() {
        match change(k, op, &mut changed) {
            Ok(()) => {}
            Err(fault) => return Err(fault),
        }
    }
    Ok(changed)
}

fn lent<'a>(alloc: Global, lines: &'a [Numbered]) -> Result<Vec<&'a Line>, NoMemory>
    ensures { IfOk result (λ all. lent_lines all.items ≡ lines_alone (lines_of lines.now)) }
{
    let mut all = Vec::new(alloc);
    for numbered in lines {
        all.push(&numbered.line)?;
    }
    Ok(all)
}

/// Changes the lines by the operation at this place, counted from 0.
fn change<'a>(k: usize, op: &'a Op, lines: &mut Vec<&'a Line>) -> Result<(), EditFault>
    ensures { IsChanged (edit.lines_after (k + 1) (op_of op.now) (lent_lines lines.old.items))
        (lent_lines lines.new.items) result }
{
    match op {
        Op::Put(line) => match key_of(line) {
            None => Err(EditFault::ModelLine(number_of(k))),
            Some(key) => put(key, line, lines),
        },
        Op::Drop(key) => match place_of(key, lines) {
            None => Err(EditFault::UnknownKey(number_of(k))),
            Some(place) => {
                lines.remove(place);
                Ok(())
            }
        },
    }
}

/// The number of a place, counted from 1; past the greatest of 32 bits it is that.
fn number_of(k: usize) -> u32
    ensures { result ≡ carried (k + 1) }
{
    if k < u32::MAX as usize {
        k as u32 + 1
    } else {
        u32::MAX
    }
}

/// Puts the line in the place of the one with its key, or at the end.
fn put<'a>(key: &Name, line: &'a Line, lines: &mut Vec<&'a Line>) -> Result<(), EditFault>
    ensures { IsPut (with_line key.now (line_of line.now) (lent_lines lines.old.items))
        (lent_lines lines.new.items) result }
{
    match place_of(key, lines) {
        Some(place) => {
            lines[place] = line;
            Ok(())
        }
        None => match lines.push(line) {
            Ok(()) => Ok(()),
            Err(_) => Err(EditFault::Memory),
        },
    }
}

/// The place of the first line with this key.
fn place_of(key: &Name, lines: &[&Line]) -> Option<usize>
    ensures place { result ≡ place_of_line key.now (lent_lines lines.now) }
    ensures within { IfSome result (λ k. k < length lines.now) }
{
    for (k, line) in lines.iter().enumerate() {
        if has_key(line, key) {
            return Some(k);
        }
    }
    None
}

fn has_key(line: &Line, key: &Name) -> bool
    ensures { result ≡ is_key key.now (declarations.key_of (line_of line.now)) }
{
    match key_of(line) {
        Some(other) => other.is_same(key),
        None => false,
    }
}

/// Equal lines, numbered by their place from 1.
fn numbered_by_place(alloc: Global, lines: &[&Line]) -> Result<Vec<Numbered>, NoMemory>
    ensures { IfOk result (λ all. lines_of all.items ≡ carried_from 1 (lent_lines lines.now)) }
{
    let mut all = Vec::new(alloc);
    for (k, line) in lines.iter().enumerate() {
        all.push(Numbered {
            at: number_of(k),
            line: line.copy(alloc)?,
        })?;
    }
    Ok(all)
}
