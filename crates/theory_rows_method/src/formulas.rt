//! Formulas, as rows write them: claims and lists.

use crate::fault::RowFault;
use crate::formula_texts::shown;
use crate::pieces::{alone, claim, sentence};
use crate::telling::told;
use std::alloc::Global;
use theory_lower::{LowerFault, is_listed, lower};
use theory_points::Bytes;
use theory_signs::{Formula, Formulas};
use theory_syntax::{Claim, Sentence};

/// The lowered formula of a sentence, or why there is none.
fn lowered(alloc: Global, sentence: &Sentence) -> Result<Result<Formula, LowerFault>, RowFault> {
    if sentence.symbols.as_slice().len() > 32 || !is_listed(sentence) {
        return Err(RowFault::Unreadable);
    }
    Ok(lower(alloc, sentence))
}

fn fault(alloc: Global, fault: LowerFault) -> Result<Bytes, RowFault> {
    match fault {
        LowerFault::Large => told(alloc, "Large"),
        LowerFault::Wide => told(alloc, "Wide"),
        LowerFault::Memory => Err(RowFault::Memory),
    }
}

/// The formula of a sentence as it is printed, or why there is none.
pub fn lowered_sentence(alloc: Global, field: &str) -> Result<Bytes, RowFault> {
    match lowered(alloc, &sentence(alloc, field)?)? {
        Ok(formula) => shown(alloc, &formula),
        Err(why) => fault(alloc, why),
    }
}

/// Whether a sentence has a formula, or why there is none.
pub fn is_lowered(alloc: Global, field: &str) -> Result<Bytes, RowFault> {
    match lowered(alloc, &sentence(alloc, field)?)? {
        Ok(_) => told(alloc, "yes"),
        Err(why) => fault(alloc, why),
    }
}

/// The formula of one claim, behind those of its divisors where it has any.
pub fn of_claim(alloc: Global, claim: Claim) -> Result<Formula, RowFault> {
    let sentence = alone(alloc, claim)?;
    match lowered(alloc, &sentence)? {
        Ok(Formula::And(members)) => Ok(list(true, members)),
        _ => Err(RowFault::Unreadable),
    }
}

/// A list of formulas; one alone is itself.
fn list(all: bool, members: Formulas) -> Formula {
    let mut members = members;
    if members.len() == 1 {
        if let Some(formula) = members.pop() {
            return formula;
        }
    }
    whole_list(all, members)
}

fn whole_list(all: bool, members: Formulas) -> Formula {
    if all {
        Formula::And(members)
    } else {
        Formula::Or(members)
    }
}

/// A list that is being read: of all, or of some.
#[derive(Drop)]
struct Frame {
    all: bool,
    members: Formulas,
}

fn push_frame(frames: &mut Vec<Frame>, frame: Frame) -> Result<(), RowFault> {
    frames.push(frame)?;
    Ok(())
}

fn push_member(members: &mut Formulas, formula: Formula) -> Result<(), RowFault> {
    members.push(formula)?;
    Ok(())
}

/// Adds to the innermost list.
fn add(frames: &mut Vec<Frame>, formula: Formula) -> Result<(), RowFault> {
    match frames.pop() {
        Some(mut frame) => {
            push_member(&mut frame.members, formula)?;
            push_frame(frames, frame)
        }
        None => Err(RowFault::Unreadable),
    }
}

/// The innermost list becomes a member of the next one.
fn close(frames: &mut Vec<Frame>) -> Result<(), RowFault> {
    match frames.pop() {
        Some(Frame { all, members }) => add(frames, whole_list(all, members)),
        None => Err(RowFault::Unreadable),
    }
}

fn step(alloc: Global, frames: &mut Vec<Frame>, part: &str) -> Result<(), RowFault> {
    match part {
        "all" | "some" => push_frame(
            frames,
            Frame {
                all: part == "all",
                members: Vec::new(alloc),
            },
        ),
        "end" => close(frames),
        _ => {
            let formula = of_claim(alloc, claim(alloc, part)?)?;
            add(frames, formula)
        }
    }
}

/// The formula of claims between semicolons; `all` and `some` open a list up to its `end`.
pub fn formula(alloc: Global, field: &str) -> Result<Formula, RowFault> {
    let mut frames = Vec::new(alloc);
    push_frame(
        &mut frames,
        Frame {
            all: true,
            members: Vec::new(alloc),
        },
    )?;
    for part in field.split(';') {
        step(alloc, &mut frames, part.trim())?;
    }
    match frames.pop() {
        Some(frame) if frames.is_empty() => Ok(list(true, frame.members)),
        _ => Err(RowFault::Unreadable),
    }
}
