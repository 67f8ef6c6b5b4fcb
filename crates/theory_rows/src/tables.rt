use crate::calls::answer;
use crate::rows::{Row, read_row};
use std::alloc::Global;
use theory_edge::{Files, Sink};
use theory_points::Bytes;
use theory_rows_method::fault::RowFault;
use theory_rows_runs::escapes::bytes_of;
use theory_search::Policies;

/// The greatest number of bytes of a table.
const MOST_BYTES: usize = 1 << 20;

/// How many rows there were, and how many of them differ.
#[derive(Clone, Copy, Debug)]
pub struct Tally {
    pub rows: u64,
    pub wrong: u64,
}

/// Runs each table and prints each row that differs, and last how many rows there were.
pub fn run_tables<F: Files, O: Sink>(
    alloc: Global,
    policies: &Policies,
    names: &[String],
    files: &mut F,
    out: &mut O,
) -> Result<Tally, RowFault> {
    let mut tally = Tally { rows: 0, wrong: 0 };
    for name in names {
        tally = run_table(alloc, policies, name, tally, files, out)?;
    }
    let rows = tally.rows;
    let last = format!(in alloc; "{rows} rows\n")?;
    write(out, last.as_bytes())?;
    Ok(tally)
}

fn write<O: Sink>(out: &mut O, piece: &[u8]) -> Result<(), RowFault> {
    match out.write(piece) {
        Ok(()) => Ok(()),
        Err(_) => Err(RowFault::Memory),
    }
}

fn run_table<F: Files, O: Sink>(
    alloc: Global,
    policies: &Policies,
    name: &String,
    tally: Tally,
    files: &mut F,
    out: &mut O,
) -> Result<Tally, RowFault> {
    let path = String::from_str(alloc, name.as_str())?;
    let bytes = match files.read(alloc, path, MOST_BYTES) {
        Ok(bytes) => bytes,
        Err(_) => return Err(RowFault::Memory),
    };
    match str::from_utf8(bytes.as_slice()) {
        Ok(text) => run_lines(alloc, policies, name.as_str(), text, tally, out),
        Err(_) => Err(RowFault::Unreadable),
    }
}

fn run_lines<O: Sink>(
    alloc: Global,
    policies: &Policies,
    name: &str,
    text: &str,
    tally: Tally,
    out: &mut O,
) -> Result<Tally, RowFault> {
    let mut tally = tally;
    for line in text.lines() {
        if let Some(row) = read_row(alloc, line)? {
            tally.rows = tally.rows.saturating_add(1);
            if !run_row(alloc, policies, name, line, &row, out)? {
                tally.wrong = tally.wrong.saturating_add(1);
            }
        }
    }
    Ok(tally)
}

/// Whether the row has the answer that is owed; it is printed where it hasn't.
fn run_row<O: Sink>(
    alloc: Global,
    policies: &Policies,
    name: &str,
    line: &str,
    row: &Row<'_>,
    out: &mut O,
) -> Result<bool, RowFault> {
    let found = match answer(alloc, policies, row.call, &row.given) {
        Ok(found) => found,
        Err(RowFault::Unreadable) => Bytes::from_slice(alloc, b"unreadable")?,
        Err(RowFault::Memory) => Bytes::from_slice(alloc, b"no memory")?,
    };
    let owed = bytes_of(alloc, row.owed)?;
    if found.as_slice() == owed.as_slice() {
        return Ok(true);
    }
    let head = format!(in alloc; "{name}: {line}\n  found: ")?;
    write(out, head.as_bytes())?;
    write(out, found.as_slice())?;
    write(out, b"\n")?;
    Ok(false)
}
