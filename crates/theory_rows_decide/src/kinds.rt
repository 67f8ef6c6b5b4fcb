//! The words of the orders.

use std::alloc::Global;
use theory_rows_method::fault::RowFault;
use theory_search::Kind;

const KINDS: [Kind; 4] = [Kind::Listed, Kind::Rare, Kind::Unit, Kind::Signed];

/// The word of an order.
pub fn word(kind: Kind) -> &'static str {
    match kind {
        Kind::Listed => "listed",
        Kind::Rare => "rare",
        Kind::Unit => "unit",
        Kind::Signed => "signed",
    }
}

/// The order of a word.
pub fn kind(word: &str) -> Result<Kind, RowFault> {
    match word {
        "listed" => Ok(Kind::Listed),
        "rare" => Ok(Kind::Rare),
        "unit" => Ok(Kind::Unit),
        "signed" => Ok(Kind::Signed),
        _ => Err(RowFault::Unreadable),
    }
}

/// The orders of the words between commas; `each` stands for all four.
pub fn kinds(alloc: Global, field: &str) -> Result<Vec<Kind>, RowFault> {
    if field == "each" {
        return Ok(Vec::from_slice(alloc, &KINDS)?);
    }
    let mut all = Vec::new(alloc);
    for part in field.split(',') {
        all.push(kind(part.trim())?)?;
    }
    Ok(all)
}
