ghost use Rattle.std.specs.Prelude.{◌≡◌, ◌≢◌, ◌↔◌, List, map, IfOk, IsTrue, Err};
ghost use Rattle.std.specs.List.{AllByRecursion};
ghost use Rattle.theory_meaning.specs.Text as text;
ghost use Rattle.theory_grammar.specs.RoundTrip.{NothingDividesInEdit};
ghost use Rattle.theory_grammar.specs.Texts.{SpellsOps};
ghost use Rattle.theory_session.specs.Reading.{IsFormat};
ghost use Rattle.theory_syntax.specs.Plain.{lines_of, op_of, ops_of};
ghost use Rattle.theory_session.specs.Row.{IsRequestId};
ghost use Rattle.theory_versions.specs.Beginning.{BeginsWith, Takes, IsTaken, IsSameVersion, NothingDividesIn, book_outcome, unaccepted_creation, unaccepted_edit};
ghost use Rattle.theory_versions.specs.Book.{entries_in, IsBookOf, IsAddition};
ghost use Rattle.theory_versions.specs.Entries.{row_of, entry_of, entries_of};

use crate::book::Book;
use crate::created::CreateFault;
use crate::edited::EditRefusal;
use crate::entry::Entry;
use crate::ids::is_request_id;
use crate::judged::Judged;
use std::alloc::Global;
use std::error::Error;
use std::fmt;
use theory_edge::Row;
use theory_model::{Model, text_of};
use theory_points::NoMemory;
use theory_syntax::{Numbered, Op};
use theory_text::{TextKind, read_ops};

/// A keeper whose rows give no desk, handed back as it was.
#[derive(Drop)]
pub struct Refused<K> {
    pub keeper: K,
    pub fault: BeginFault,
}

/// Why the rows of a keeper give no desk.
#[derive(Clone, Copy, Debug, PartialEq, Eq)]
pub enum BeginFault {
    /// The row of this number, from 1, is the first that isn't accepted behind those before it.
    BadRow(u64),
    /// The keeper failed; it is counted there.
    KeeperFault,
    /// Want of memory, which may come at any place.
    Memory,
}

impl fmt::Display for BeginFault {
    ghost use Rattle.std.specs.Prelude.{Some};
    ghost use Rattle.theory_versions.specs.Message.{begin_message};

    ghost output = { λ fault. Some (begin_message fault) };

    fn fmt<W: fmt::Write>(&self, f: &mut fmt::Formatter<W>) -> fmt::Result {
        f.write_str(match self {
            BeginFault::BadRow(_) => "a stored row isn't accepted",
            BeginFault::KeeperFault => "the keeper failed",
            BeginFault::Memory => "no memory",
        })
    }
}

impl Error for BeginFault {}

/// Why a row isn't taken.
#[derive(Clone, Copy, Debug, PartialEq, Eq)]
pub(crate) enum Unaccepted {
    /// It isn't accepted behind those before it.
    Bad,
    /// Want of memory.
    Memory,
}

/// The versions of these rows, each taken as an accepted request.
pub(crate) fn book_of(alloc: Global, rows: &[Row]) -> Result<Book, BeginFault>
    ensures book { IfOk result IsBookOf }
    ensures begun { BeginsWith (map row_of rows.now) (book_outcome result) }
    // The keeper isn't asked.
    ensures no_keeper { result ≢ Err BeginFault.KeeperFault }
{
    let mut book = Book::new(alloc);
    for k in 0..rows.len() {
        match book.take(alloc, &rows[k]) {
            Ok(()) => {}
            Err(Unaccepted::Bad) => return Err(BeginFault::BadRow(k as u64 + 1)),
            Err(Unaccepted::Memory) => return Err(BeginFault::Memory),
        }
    }
    Ok(book)
}

impl Book {
    /// Takes a row as an accepted request.
    fn take(&mut self, alloc: Global, row: &Row) -> Result<(), Unaccepted>
        requires book { IsBookOf self.old }
        ensures book { IsBookOf self.new }
        ensures taken { Takes (entries_in self.old) (row_of row.now) result (entries_in self.new) }
    {
        if !is_request_id(&row.id) {
            return Err(Unaccepted::Bad);
        }
        let (entry, size) = match self.next_of(alloc, row) {
            Ok(next) => next,
            Err(why) => return Err(why),
        };
        let room = match self.take_room(alloc, &entry.row.model, &entry.row.id) {
            Ok(room) => room,
            Err(_) => return Err(Unaccepted::Memory),
        };
        self.add(room, entry, size);
        Ok(())
    }

    /// The version that a row makes, and the bytes that are counted with it.
    fn next_of(&self, alloc: Global, row: &Row) -> Result<(Entry, u64), Unaccepted>
        requires book { IsBookOf self.now }
        requires id { IsRequestId row.now.id }
        ensures { IsTaken (entries_in self.now) (row_of row.now) result }
    {
        if row.base == 0 {
            self.first_of(alloc, row)
        } else {
            self.behind_of(alloc, row)
        }
    }

    /// The same of a row that no version comes before.
    fn first_of(&self, alloc: Global, row: &Row) -> Result<(Entry, u64), Unaccepted>
        requires book { IsBookOf self.now }
        requires id { IsRequestId row.now.id }
        requires first { row.now.base ≡ 0 }
        ensures { IsTaken (entries_in self.now) (row_of row.now) result }
    {
        match self.judge_first(alloc, row.format, &row.id, row.body.as_slice()) {
            Ok(Judged::Addition(entry, size)) => {
                if !is_same_version(&entry.row, row) {
                    return Err(Unaccepted::Bad);
                }
                if !is_text_format(row.format, &entry.model) {
                    return Err(Unaccepted::Bad);
                }
                Ok((entry, size))
            }
            Ok(Judged::Repetition(_)) => Err(Unaccepted::Bad),
            Err(fault) => Err(uncreated(fault)),
        }
    }

    /// The same of a row that a version comes before.
    fn behind_of(&self, alloc: Global, row: &Row) -> Result<(Entry, u64), Unaccepted>
        requires book { IsBookOf self.now }
        requires id { IsRequestId row.now.id }
        requires later { row.now.base ≢ 0 }
        ensures { IsTaken (entries_in self.now) (row_of row.now) result }
    {
        let body = row.body.as_slice();
        match self.judge_edit(alloc, row.format, &row.model, row.base, &row.id, body) {
            Ok(Judged::Addition(entry, size)) => {
                if !is_same_version(&entry.row, row) {
                    return Err(Unaccepted::Bad);
                }
                match is_edit_format(alloc, row.format, body) {
                    Ok(true) => Ok((entry, size)),
                    Ok(false) => Err(Unaccepted::Bad),
                    Err(_) => Err(Unaccepted::Memory),
                }
            }
            Ok(Judged::Repetition(_)) => Err(Unaccepted::Bad),
            Err(refusal) => Err(unedited(refusal)),
        }
    }
}

/// Why a row isn't taken, whose creation is refused so.
fn uncreated(fault: CreateFault) -> Unaccepted
    ensures { result ≡ unaccepted_creation fault }
{
    match fault {
        CreateFault::Memory => Unaccepted::Memory,
        _ => Unaccepted::Bad,
    }
}

/// Why a row isn't taken, whose edit is refused so.
fn unedited(refusal: EditRefusal) -> Unaccepted
    ensures { result ≡ unaccepted_edit refusal }
{
    match refusal {
        EditRefusal::Memory => Unaccepted::Memory,
        _ => Unaccepted::Bad,
    }
}

/// Whether two rows are of one version of a model, behind the same version.
fn is_same_version(a: &Row, b: &Row) -> bool
    ensures { IsTrue result ↔ IsSameVersion (row_of a.now) (row_of b.now) }
{
    a.model.is_same(&b.model) && a.version == b.version && a.base == b.base
}

/// Whether a model may come from a body of this format.
fn is_text_format(format: u8, model: &Model) -> bool
    ensures { IsTrue result ↔ IsFormat format (NothingDividesIn (lines_of model.now)) }
{
    format == 2 || (format == 1 && nothing_divides(text_of(model).as_slice()))
}

/// Whether no quotient stands in the lines.
fn nothing_divides(lines: &[Numbered]) -> bool
    ensures { IsTrue result ↔ NothingDividesIn (lines_of lines.now) }
{
    for numbered in lines {
        if numbered.line.divides() {
            return false;
        }
    }
    true
}

/// Whether the body of an edit, where it spells operations, is of this format.
fn is_edit_format(alloc: Global, format: u8, body: &[u8]) -> Result<bool, NoMemory>
    ensures { IfOk result (λ is. (ops : List text.Op) → SpellsOps body.now ops →
        IsTrue is ↔ IsFormat format (AllByRecursion NothingDividesInEdit ops)) }
{
    if format != 1 {
        return Ok(format == 2);
    }
    match read_ops(alloc, body) {
        Ok(ops) => Ok(nothing_divides_in(ops.as_slice())),
        Err(error) => match error.kind {
            TextKind::Memory => Err(NoMemory),
            _ => Ok(false),
        },
    }
}

/// Whether no quotient stands in the operations.
fn nothing_divides_in(ops: &[Op]) -> bool
    ensures { IsTrue result ↔ AllByRecursion NothingDividesInEdit (ops_of ops.now) }
{
    for op in ops {
        if op_divides(op) {
            return false;
        }
    }
    true
}

fn op_divides(op: &Op) -> bool
    ensures { IsTrue result ↔ (¬ NothingDividesInEdit (op_of op.now)) }
{
    match op {
        Op::Put(line) => line.divides(),
        Op::Drop(_) => false,
    }
}
