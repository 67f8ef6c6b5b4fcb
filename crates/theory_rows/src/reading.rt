//! Calls that read: lines, texts and edit texts.

use std::alloc::Global;
use theory_points::Bytes;
use theory_print::print_op;
use theory_rows_method::fault::RowFault;
use theory_rows_method::telling::{add_apart, add_whole, told, yes_or_no};
use theory_syntax::{Line, Lines, Numbered};
use theory_text::{TextError, TextKind, kind_name, print_line, read_line, read_ops, read_text};

/// The kind of a fault, with line and column.
pub fn fault(alloc: Global, error: TextError) -> Result<Bytes, RowFault> {
    if error.kind == TextKind::Memory {
        return Err(RowFault::Memory);
    }
    let (kind, line, column) = (kind_name(error.kind), error.line, error.column);
    let text = format!(in alloc; "{kind} {line}:{column}")?;
    told(alloc, text.as_str())
}

/// The printed form of a line, or its fault.
pub fn line(alloc: Global, bytes: &[u8]) -> Result<Bytes, RowFault> {
    match read_line(alloc, bytes) {
        Ok(Some(line)) => Ok(print_line(alloc, &line)?),
        Ok(None) => told(alloc, "nothing"),
        Err(error) => fault(alloc, error),
    }
}

/// The printed form of a line that is printed once more, or its fault.
pub fn printed_twice(alloc: Global, bytes: &[u8]) -> Result<Bytes, RowFault> {
    let once = line(alloc, bytes)?;
    let again = line(alloc, once.as_slice())?;
    if once.as_slice() == again.as_slice() {
        Ok(once)
    } else {
        told(alloc, "another line")
    }
}

/// The printed form of a copy of a line.
pub fn copied(alloc: Global, bytes: &[u8]) -> Result<Bytes, RowFault> {
    match read_line(alloc, bytes) {
        Ok(Some(line)) => copy_printed(alloc, &line),
        Ok(None) => told(alloc, "nothing"),
        Err(error) => fault(alloc, error),
    }
}

fn copy_printed(alloc: Global, line: &Line) -> Result<Bytes, RowFault> {
    let copy = line.copy(alloc)?;
    Ok(print_line(alloc, &copy)?)
}

/// Whether something is divided in a line.
pub fn divides(alloc: Global, bytes: &[u8]) -> Result<Bytes, RowFault> {
    match read_line(alloc, bytes) {
        Ok(Some(line)) => yes_or_no(alloc, line.divides()),
        Ok(None) => told(alloc, "nothing"),
        Err(error) => fault(alloc, error),
    }
}

/// The lines of a text with their numbers, or its first fault.
pub fn text(alloc: Global, bytes: &[u8]) -> Result<Bytes, RowFault> {
    match read_text(alloc, bytes) {
        Ok(lines) if lines.is_empty() => told(alloc, "nothing"),
        Ok(lines) => lines_told(alloc, &lines),
        Err(error) => fault(alloc, error),
    }
}

/// Each line with its number.
pub fn lines_told(alloc: Global, lines: &[Numbered]) -> Result<Bytes, RowFault> {
    let mut text = Bytes::new(alloc);
    for numbered in lines {
        let mut line = Bytes::new(alloc);
        add_whole(alloc, &mut line, i128::from(numbered.at))?;
        line.extend(b" ")?;
        line.extend(print_line(alloc, &numbered.line)?.as_slice())?;
        add_apart(&mut text, b"; ", line.as_slice())?;
    }
    Ok(text)
}

/// The edits of an edit text, or its first fault.
pub fn edits(alloc: Global, bytes: &[u8]) -> Result<Bytes, RowFault> {
    let ops = match read_ops(alloc, bytes) {
        Ok(ops) => ops,
        Err(error) => return fault(alloc, error),
    };
    if ops.is_empty() {
        return told(alloc, "nothing");
    }
    let mut text = Bytes::new(alloc);
    for op in &ops {
        add_apart(&mut text, b"; ", print_op(alloc, op)?.as_slice())?;
    }
    Ok(text)
}

/// The numbered lines of a text that has no fault.
pub fn lines(alloc: Global, bytes: &[u8]) -> Result<Lines, RowFault> {
    match read_text(alloc, bytes) {
        Ok(lines) => Ok(lines),
        Err(_) => Err(RowFault::Unreadable),
    }
}
