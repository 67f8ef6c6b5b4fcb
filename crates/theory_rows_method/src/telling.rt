//! Lists of told things, and what several calls tell.

use crate::fault::RowFault;
use std::alloc::Global;
use theory_points::{Bytes, Frac};

/// The bytes of a word.
pub fn told(alloc: Global, word: &str) -> Result<Bytes, RowFault> {
    Ok(Bytes::from_slice(alloc, word.as_bytes())?)
}

/// Adds a piece behind a separator, which goes before all but the first.
pub fn add_apart(text: &mut Bytes, separator: &[u8], piece: &[u8]) -> Result<(), RowFault> {
    if !text.is_empty() {
        text.extend(separator)?;
    }
    text.extend(piece)?;
    Ok(())
}

/// A word with a number behind it.
pub fn numbered(alloc: Global, word: &str, number: i128) -> Result<Bytes, RowFault> {
    let text = format!(in alloc; "{word} {number}")?;
    told(alloc, text.as_str())
}

pub fn yes_or_no(alloc: Global, truth: bool) -> Result<Bytes, RowFault> {
    told(alloc, if truth { "yes" } else { "no" })
}

pub fn add_whole(alloc: Global, text: &mut Bytes, number: i128) -> Result<(), RowFault> {
    let digits = format!(in alloc; "{number}")?;
    text.extend(digits.as_bytes())?;
    Ok(())
}

/// A fraction as the language prints it, with a sign in front where it is below 0.
pub fn fraction(alloc: Global, value: &Frac) -> Result<Bytes, RowFault> {
    let mut text = Bytes::new(alloc);
    add_whole(alloc, &mut text, value.num() as i128)?;
    if value.den() != 1 {
        text.extend(b"/")?;
        add_whole(alloc, &mut text, value.den() as i128)?;
    }
    Ok(text)
}
