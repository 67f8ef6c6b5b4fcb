//! Calls that read tokens, and lines and edits from them.

use crate::spelling::{keyword, mark, relation};
use std::alloc::Global;
use theory_line::{ParseFault, parse_line, parse_op};
use theory_points::Bytes;
use theory_print::{print_line, print_op};
use theory_rows_method::fault::RowFault;
use theory_rows_method::telling::{add_apart, add_whole, numbered, told};
use theory_tokens::{End, Token, scan_line};

/// The tokens of a line, each with its column, and how the line ends.
pub fn tokens(alloc: Global, line: &[u8]) -> Result<Bytes, RowFault> {
    if line.len() > 65_536 {
        return Err(RowFault::Unreadable);
    }
    let scanned = scan_line(alloc, line)?;
    let mut text = Bytes::new(alloc);
    for (token, column) in scanned.tokens.iter().zip(scanned.columns.iter()) {
        let piece = token_told(alloc, *column, token)?;
        add_apart(&mut text, b"; ", piece.as_slice())?;
    }
    add_apart(&mut text, b"; ", end_told(alloc, scanned.end)?.as_slice())?;
    Ok(text)
}

fn token_told(alloc: Global, column: u32, token: &Token<'_>) -> Result<Bytes, RowFault> {
    let mut text = Bytes::new(alloc);
    add_whole(alloc, &mut text, i128::from(column))?;
    match token {
        Token::Keyword(word) => add_word(&mut text, b" keyword ", keyword(*word))?,
        Token::Mark(sign) => add_word(&mut text, b" sign ", mark(*sign))?,
        Token::Relation(rel) => add_word(&mut text, b" relation ", relation(*rel))?,
        Token::Number(number) => {
            text.extend(b" number ")?;
            add_whole(alloc, &mut text, i128::from(*number))?;
        }
        Token::Name(word) => {
            text.extend(b" name ")?;
            text.extend(word)?;
        }
        Token::Dotted(word) => {
            text.extend(b" dotted ")?;
            text.extend(word)?;
        }
        Token::Stray => text.extend(b" stray")?,
    }
    Ok(text)
}

/// Adds what a token is, and how it is spelled.
fn add_word(text: &mut Bytes, kind: &[u8], spelled: &str) -> Result<(), RowFault> {
    text.extend(kind)?;
    text.extend(spelled.as_bytes())?;
    Ok(())
}

fn end_told(alloc: Global, end: End) -> Result<Bytes, RowFault> {
    let mut text = Bytes::new(alloc);
    match end {
        End::Complete(column) => {
            text.extend(b"end ")?;
            add_whole(alloc, &mut text, i128::from(column))?;
        }
        End::Broken(why, column) => {
            text.extend(format!(in alloc; "{why:?} ")?.as_bytes())?;
            add_whole(alloc, &mut text, i128::from(column))?;
        }
    }
    Ok(text)
}

/// The printed form of the line that the tokens of some bytes are, or the text of its fault and
/// how many tokens are left.
pub fn parsed(alloc: Global, line: &[u8]) -> Result<Bytes, RowFault> {
    if line.len() > 65_536 {
        return Err(RowFault::Unreadable);
    }
    let scanned = scan_line(alloc, line)?;
    match parse_line(alloc, &scanned.tokens) {
        Ok(line) => Ok(print_line(alloc, &line)?),
        Err(fault) => fault_told(alloc, fault),
    }
}

/// The same for an edit.
pub fn parsed_edit(alloc: Global, line: &[u8]) -> Result<Bytes, RowFault> {
    if line.len() > 65_536 {
        return Err(RowFault::Unreadable);
    }
    let scanned = scan_line(alloc, line)?;
    match parse_op(alloc, &scanned.tokens) {
        Ok(op) => Ok(print_op(alloc, &op)?),
        Err(fault) => fault_told(alloc, fault),
    }
}

fn fault_told(alloc: Global, fault: ParseFault) -> Result<Bytes, RowFault> {
    let text = fault.to_string(alloc)?;
    match fault {
        ParseFault::At(_, left) => numbered(alloc, text.as_str(), left as i128),
        ParseFault::Memory => told(alloc, text.as_str()),
    }
}
