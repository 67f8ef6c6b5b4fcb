//! Bytes that are too long for a row.

use std::alloc::Global;
use theory_points::Bytes;
use theory_rows_method::calls::field;
use theory_rows_method::fault::RowFault;
use theory_rows_method::telling::add_whole;
use theory_rows_runs::escapes::bytes_of;

/// A front, and behind it as many times as is said a piece; where the row has one piece more, the
/// number of the time, from 0, and that piece behind it.
pub fn series(alloc: Global, given: &[&str]) -> Result<Bytes, RowFault> {
    let times = count(field(given, 3))?;
    let piece = bytes_of(alloc, field(given, 2))?;
    let mut all = bytes_of(alloc, field(given, 1))?;
    for k in 0..times {
        all.extend(piece.as_slice())?;
        if let Some(behind) = given.get(4) {
            add_whole(alloc, &mut all, i128::from(k))?;
            all.extend(bytes_of(alloc, behind)?.as_slice())?;
        }
    }
    Ok(all)
}

fn count(field: &str) -> Result<u32, RowFault> {
    match field.parse::<u32>() {
        Ok(times) => Ok(times),
        Err(_) => Err(RowFault::Unreadable),
    }
}
