//! Both halves of a question, as a reply prints them.

use crate::kinds::{kinds, word};
use crate::premises::is_distinct;
use crate::questions::{Question, names};
use std::alloc::Global;
use theory_cli::{Reply, print};
use theory_decide::written_half;
use theory_lower::is_listed;
use theory_points::{Bytes, Name};
use theory_rows_method::calls::field;
use theory_rows_method::fault::RowFault;
use theory_rows_method::telling::add_apart;
use theory_search::{Kind, Policies};
use theory_syntax::Sentence;
use theory_verdict::{Answer, Half, verdict_of};

/// The verdict and the halves of a question by each of the orders; once, where all agree.
pub fn by_orders(alloc: Global, policies: &Policies, given: &[&str]) -> Result<Bytes, RowFault> {
    let question = Question {
        names: field(given, 1),
        assumptions: field(given, 2),
        claim: field(given, 3),
    };
    let kinds = kinds(alloc, field(given, 0))?;
    let mut answers = Vec::new(alloc);
    for kind in &kinds {
        answers.push(answered(alloc, policies, *kind, &question)?)?;
    }
    match answers.pop() {
        Some(last) if are_all(&answers, &last) => Ok(last),
        Some(last) => {
            answers.push(last)?;
            by_kind(alloc, &kinds, &answers)
        }
        None => Err(RowFault::Unreadable),
    }
}

fn are_all(answers: &[Bytes], one: &Bytes) -> bool {
    for answer in answers {
        if answer.as_slice() != one.as_slice() {
            return false;
        }
    }
    true
}

/// Each answer behind its order.
fn by_kind(alloc: Global, kinds: &[Kind], answers: &[Bytes]) -> Result<Bytes, RowFault> {
    let mut text = Bytes::new(alloc);
    for (kind, answer) in kinds.iter().zip(answers.iter()) {
        add_apart(&mut text, b"; ", word(*kind).as_bytes())?;
        text.extend(b": ")?;
        text.extend(answer.as_slice())?;
    }
    Ok(text)
}

/// The verdict and the halves by one order.
fn answered(
    alloc: Global,
    policies: &Policies,
    kind: Kind,
    question: &Question<'_>,
) -> Result<Bytes, RowFault> {
    let example = half(alloc, policies, &question.example(alloc)?, kind)?;
    let counter = half(alloc, policies, &question.counterexample(alloc)?, kind)?;
    let verdict = verdict_of(&example, &counter);
    let reply = Reply::Answered(Answer {
        model: Name::from_slice(alloc, b"m")?,
        version: 1,
        claim: Name::from_slice(alloc, b"C")?,
        symbols: names(alloc, question.names)?,
        example,
        counter,
        verdict,
        region: None,
    });
    in_one_line(alloc, print(alloc, &reply)?.as_slice())
}

fn half(
    alloc: Global,
    policies: &Policies,
    sentence: &Sentence,
    kind: Kind,
) -> Result<Half, RowFault> {
    let symbols = sentence.symbols.as_slice();
    if symbols.len() > 32 || !is_distinct(symbols) || !is_listed(sentence) {
        return Err(RowFault::Unreadable);
    }
    Ok(written_half(alloc, policies.policy(kind), sentence)?)
}

/// The lines of a reply between semicolons, without what the first says of the question.
fn in_one_line(alloc: Global, reply: &[u8]) -> Result<Bytes, RowFault> {
    let text = match str::from_utf8(reply) {
        Ok(text) => text,
        Err(_) => return Err(RowFault::Unreadable),
    };
    let mut all = Bytes::new(alloc);
    for line in text.lines() {
        let told = line.strip_prefix("claim C of m 1: ").unwrap_or(line);
        add_apart(&mut all, b"; ", told.trim().as_bytes())?;
    }
    Ok(all)
}
