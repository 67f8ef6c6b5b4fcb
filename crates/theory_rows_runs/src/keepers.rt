//! Keepers of rows: one in memory, of whose calls some fail or want memory, and one that never
//! fails.

use crate::ends::{add_counted, failing};
use std::alloc::Global;
use theory_edge::{EndFault, Keeper, MemKeeper, Row, Rows, SureKeeper};
use theory_points::{Bytes, Name};
use theory_rows_method::fault::RowFault;
use theory_rows_method::telling::{add_apart, told};

/// What each call of a keeper that holds the row `a` answers, with the count of faults behind it:
/// `.`, `!` for a fault, `?` for want of memory; a read gives the ids of the rows.
pub fn keeps(alloc: Global, fails: &str, wants: &str, calls: &str) -> Result<Bytes, RowFault> {
    let mut rows = Rows::new(alloc);
    rows.push(row(alloc, "a")?)?;
    let mut keeper = MemKeeper::new(rows, failing(alloc, fails)?, failing(alloc, wants)?);
    let mut text = Bytes::new(alloc);
    for call in calls.split(',') {
        let answer = keep(alloc, &mut keeper, call.trim())?;
        add_counted(alloc, &mut text, answer.as_slice(), keeper.faults())?;
    }
    Ok(text)
}

fn keep(alloc: Global, keeper: &mut MemKeeper, call: &str) -> Result<Bytes, RowFault> {
    let (word, id) = call.split_once(' ').unwrap_or((call, ""));
    match word {
        "open" => marked(alloc, keeper.open(alloc, None)),
        "rows" => read(alloc, keeper.rows(alloc)),
        "add" => marked(alloc, keeper.append(alloc, &row(alloc, id)?)),
        _ => Err(RowFault::Unreadable),
    }
}

/// A row with this id, in the first format.
fn row(alloc: Global, id: &str) -> Result<Row, RowFault> {
    Ok(Row {
        format: 1,
        model: Name::from_slice(alloc, b"m")?,
        version: 1,
        base: 0,
        id: Name::from_slice(alloc, id.as_bytes())?,
        body: Bytes::from_slice(alloc, b"model m\n")?,
    })
}

fn marked(alloc: Global, answer: Result<(), EndFault>) -> Result<Bytes, RowFault> {
    match answer {
        Ok(()) => told(alloc, "."),
        Err(EndFault::Failed) => told(alloc, "!"),
        Err(EndFault::NoMemory) => told(alloc, "?"),
    }
}

fn read(alloc: Global, answer: Result<Rows, EndFault>) -> Result<Bytes, RowFault> {
    match answer {
        Ok(rows) => ids(alloc, rows.as_slice()),
        Err(fault) => marked(alloc, Err(fault)),
    }
}

fn ids(alloc: Global, rows: &[Row]) -> Result<Bytes, RowFault> {
    let mut text = Bytes::new(alloc);
    for row in rows {
        text.extend(row.id.as_slice())?;
    }
    Ok(text)
}

/// The ids of the rows that a keeper which never fails holds after these were added, between
/// commas.
pub fn keeps_surely(alloc: Global, added: &str) -> Result<Bytes, RowFault> {
    let mut keeper = SureKeeper::new(alloc);
    let mut text = marked(alloc, keeper.open(alloc, None))?;
    for id in added.split(',') {
        let answer = marked(alloc, keeper.append(alloc, &row(alloc, id.trim())?))?;
        text.extend(answer.as_slice())?;
    }
    add_apart(&mut text, b" ", read(alloc, keeper.rows(alloc))?.as_slice())?;
    Ok(text)
}

/// Whether a row with this many bytes in its model's name, its id and its body fits every keeper.
pub fn fits(alloc: Global, model: &str, id: &str, body: &str) -> Result<Bytes, RowFault> {
    let row = Row {
        format: 2,
        model: Name::from_slice(alloc, bytes(alloc, model)?.as_slice())?,
        version: 2,
        base: 1,
        id: Name::from_slice(alloc, bytes(alloc, id)?.as_slice())?,
        body: bytes(alloc, body)?,
    };
    told(alloc, if row.is_fit() { "fits" } else { "too long" })
}

fn bytes(alloc: Global, count: &str) -> Result<Bytes, RowFault> {
    let mut text = Bytes::new(alloc);
    let count = match count.parse::<u32>() {
        Ok(count) => count,
        Err(_) => return Err(RowFault::Unreadable),
    };
    for _ in 0..count {
        text.extend(b"a")?;
    }
    Ok(text)
}
