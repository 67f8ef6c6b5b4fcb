//! Claims with lists of any length, as rows write them: `all`, `some` or `not` opens one, up to
//! its `end`.

use std::alloc::Global;
use theory_points::Bytes;
use theory_rows_method::fault::RowFault;
use theory_rows_method::pieces::claim;
use theory_syntax::{Claim, Claims};
use theory_text::print_claim;

/// A list that is being read, behind the word that opened it.
#[derive(Drop)]
struct Frame<'a> {
    word: &'a str,
    members: Claims,
}

/// The printed form of such a claim.
pub fn printed(alloc: Global, field: &str) -> Result<Bytes, RowFault> {
    let mut frames = Vec::new(alloc);
    open(alloc, &mut frames, "")?;
    for part in field.split(';') {
        step(alloc, &mut frames, part.trim())?;
    }
    let claim = only(closed(&mut frames)?)?;
    Ok(print_claim(alloc, &claim)?)
}

fn step<'a>(alloc: Global, frames: &mut Vec<Frame<'a>>, part: &'a str) -> Result<(), RowFault> {
    match part {
        "all" | "some" | "not" => open(alloc, frames, part),
        "end" => {
            let claim = made(alloc, closed(frames)?)?;
            add(frames, claim)
        }
        _ => add(frames, claim(alloc, part)?),
    }
}

fn open<'a>(alloc: Global, frames: &mut Vec<Frame<'a>>, word: &'a str) -> Result<(), RowFault> {
    let members = Vec::new(alloc);
    frames.push(Frame { word, members })?;
    Ok(())
}

fn closed<'a>(frames: &mut Vec<Frame<'a>>) -> Result<Frame<'a>, RowFault> {
    match frames.pop() {
        Some(frame) => Ok(frame),
        None => Err(RowFault::Unreadable),
    }
}

/// Adds to the innermost list.
fn add(frames: &mut Vec<Frame<'_>>, claim: Claim) -> Result<(), RowFault> {
    let mut frame = closed(frames)?;
    frame.members.push(claim)?;
    frames.push(frame)?;
    Ok(())
}

/// The claim of a list that is read.
fn made(alloc: Global, frame: Frame<'_>) -> Result<Claim, RowFault> {
    match frame.word {
        "all" => Ok(Claim::And(frame.members)),
        "some" => Ok(Claim::Or(frame.members)),
        _ => Ok(Claim::Not(Box::new(alloc, only(frame)?)?)),
    }
}

fn only(frame: Frame<'_>) -> Result<Claim, RowFault> {
    let mut members = frame.members;
    match members.pop() {
        Some(claim) if members.is_empty() => Ok(claim),
        _ => Err(RowFault::Unreadable),
    }
}
