ghost use Rattle.std.specs.Prelude.{◌≤◌, IfOk, IfSome, length};
ghost use Rattle.std.specs.Option.{option_map};
ghost use Rattle.theory_meaning.specs.Edit.{HasIdentifiers, HaveIdentifiers, PutsIdentifiers};
ghost use Rattle.theory_grammar.specs.Spelled.{IsLine, IsOp};
ghost use Rattle.theory_grammar.specs.Texts.{with_number, without_number, SpellsLines, IsFirstFault, SpellsOps, IsFirstOpsFault, SpellsOneLine, IsFirstLineFault};
ghost use Rattle.theory_syntax.specs.Plain.{line_of, lines_of, ops_of};
ghost use Rattle.theory_text.specs.Added.{IsAdded};
ghost use Rattle.theory_text.specs.Answers.{IsReadAs};
ghost use Rattle.theory_text.specs.Cut.{IsWithoutFeed};

use crate::cutting::{split_at_feed, split_line};
use crate::error::TextError;
use crate::one_line::{one_line, one_op};
use crate::placing::{check_line, check_text, error_in_line_1};
use std::alloc::Global;
use theory_grammar::TextKind;
use theory_syntax::{Line, Lines, Numbered, Ops};

/// The numbered lines of a model text.
pub fn read_text(alloc: Global, bytes: &[u8]) -> Result<Lines, TextError>
    ensures exact { IsReadAs SpellsLines IsFirstFault
        (λ lines. lines_of lines.items) bytes.now result }

    // Names, labels, arguments and shifts are identifiers.
    ensures identifiers { IfOk result (λ lines. HaveIdentifiers (lines_of lines.items)) }
{
    check_text(bytes)?;
    let mut lines = Vec::new(alloc);
    let mut number = 1;
    let mut rest = bytes;
    while !rest.is_empty() {
        let (line, behind) = split_line(rest);
        add_line(alloc, &mut lines, number, line)?;
        number += 1;
        rest = behind;
    }
    Ok(lines)
}

// Appends the line of this number, if it has a token.
fn add_line(alloc: Global, lines: &mut Lines, number: u32, bytes: &[u8]) -> Result<(), TextError>
    ensures { IsAdded IsLine with_number number bytes.now (lines_of lines.old.items)
        (lines_of lines.new.items) result }
{
    match one_line(alloc, number, bytes)? {
        Some(line) => lines.push(Numbered { at: number, line })?,
        None => {}
    }
    Ok(())
}

/// The operations of an edit text.
pub fn read_ops(alloc: Global, bytes: &[u8]) -> Result<Ops, TextError>
    ensures exact { IsReadAs SpellsOps IsFirstOpsFault (λ ops. ops_of ops.items) bytes.now result }

    // Names, labels, arguments and shifts of the lines that are put are identifiers.
    ensures identifiers { IfOk result (λ ops. PutsIdentifiers (ops_of ops.items)) }
{
    check_text(bytes)?;
    let mut ops = Vec::new(alloc);
    let mut number = 1;
    let mut rest = bytes;
    while !rest.is_empty() {
        let (line, behind) = split_line(rest);
        add_op(alloc, &mut ops, number, line)?;
        number += 1;
        rest = behind;
    }
    Ok(ops)
}

// Appends the operation of the line of this number, if it has a token.
fn add_op(alloc: Global, ops: &mut Ops, number: u32, bytes: &[u8]) -> Result<(), TextError>
    ensures { IsAdded IsOp without_number number bytes.now (ops_of ops.old.items)
        (ops_of ops.new.items) result }
{
    match one_op(alloc, number, bytes)? {
        Some(op) => ops.push(op)?,
        None => {}
    }
    Ok(())
}

/// The line that the bytes are, or None where they are blanks and a comment.
pub fn read_line(alloc: Global, bytes: &[u8]) -> Result<Option<Line>, TextError>
    ensures exact { IsReadAs SpellsOneLine IsFirstLineFault (option_map line_of) bytes.now result }

    // Names, labels, arguments and shifts are identifiers.
    ensures identifiers { IfOk result (λ read.
        IfSome read (λ line. HasIdentifiers (line_of line))) }
{
    check_line(bytes)?;
    let line = one_line(alloc, 1, bytes)?;
    without_feed(bytes, line)
}

// What was read of the bytes, where no line feed stands among them.
fn without_feed<V: Drop>(bytes: &[u8], read: V) -> Result<V, TextError>
    requires few { length bytes.now ≤ 65536 }
    ensures { IsWithoutFeed bytes.now read result }
{
    let (before, behind) = split_at_feed(bytes);
    if behind.is_empty() {
        Ok(read)
    } else {
        Err(error_in_line_1(TextKind::BadToken, before.len()))
    }
}
