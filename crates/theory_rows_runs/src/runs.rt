//! Calls of the program and of verdicts.

use crate::ends::{failing, texts};
use std::alloc::Global;
use theory_cli::{Status, theory};
use theory_edge::{Calls, MemFiles, MemSink};
use theory_points::Bytes;
use theory_rows_method::calls::field;
use theory_rows_method::fault::RowFault;
use theory_rows_method::telling::told;
use theory_search::Policies;
use theory_verdict::{Cause, Half, Verdict, verdict_of};

/// The ends of one run.
#[derive(Drop)]
struct Ends {
    files: MemFiles,
    out: MemSink,
    err: MemSink,
}

impl Ends {
    /// Ends with one file of this name, of whose reads and writes to out those of these numbers
    /// fail.
    fn new(
        alloc: Global,
        name: &str,
        text: &[u8],
        reads: &str,
        writes: &str,
    ) -> Result<Ends, RowFault> {
        Ok(Ends {
            files: MemFiles::new(texts(alloc, name, text)?, failing(alloc, reads)?),
            out: MemSink::new(alloc, 65_536, failing(alloc, writes)?)?,
            err: MemSink::new(alloc, 65_536, Calls::new(alloc))?,
        })
    }
}

fn words(alloc: Global, command: &str) -> Result<Vec<String>, RowFault> {
    let mut words = Vec::new(alloc);
    for word in command.split(' ') {
        if !word.is_empty() {
            words.push(String::from_str(alloc, word)?)?;
        }
    }
    Ok(words)
}

fn run(
    alloc: Global,
    policies: &Policies,
    command: &str,
    ends: &mut Ends,
) -> Result<Status, RowFault> {
    let words = words(alloc, command)?;
    let Ends { files, out, err } = ends;
    Ok(theory(alloc, &words, policies, files, out, err).status)
}

/// The status of a run, and what is written to each stream: its words, the name of the only file,
/// the numbers of the reads and the writes to out that fail, and the text.
pub fn ended(
    alloc: Global,
    policies: &Policies,
    given: &[&str],
    text: &[u8],
) -> Result<Bytes, RowFault> {
    let name = field(given, 1);
    let mut ends = Ends::new(alloc, name, text, field(given, 2), field(given, 3))?;
    let status = run(alloc, policies, field(given, 0), &mut ends)?;
    streams_told(alloc, status, ends.out.held(), ends.err.held())
}

/// The same of `check m`, where nothing fails.
pub fn checked(alloc: Global, policies: &Policies, text: &[u8]) -> Result<Bytes, RowFault> {
    ended(alloc, policies, &["check m", "m", "", ""], text)
}

fn streams_told(alloc: Global, status: Status, out: &[u8], err: &[u8]) -> Result<Bytes, RowFault> {
    let mut all = told(alloc, status_name(status))?;
    add_stream(&mut all, b"; out: ", out)?;
    add_stream(&mut all, b"; err: ", err)?;
    Ok(all)
}

/// Adds what a stream holds behind its name; nothing where it is empty.
fn add_stream(text: &mut Bytes, name: &[u8], held: &[u8]) -> Result<(), RowFault> {
    if held.is_empty() {
        return Ok(());
    }
    text.extend(name)?;
    text.extend(held)?;
    Ok(())
}

fn status_name(status: Status) -> &'static str {
    match status {
        Status::Finished => "finished",
        Status::Unsettled => "unsettled",
        Status::Refused => "refused",
        Status::NoCommand => "no command",
        Status::Unread => "unread",
        Status::Unwritten => "unwritten",
        Status::NoMemory => "no memory",
    }
}

fn half(word: &str) -> Result<Half, RowFault> {
    match word {
        "there" => Ok(Half::FoundWide),
        "none" => Ok(Half::Absent),
        "undecided" => Ok(Half::Left(Cause::Budget)),
        _ => Err(RowFault::Unreadable),
    }
}

/// The verdict for an example and a counterexample.
pub fn verdict(alloc: Global, example: &str, counter: &str) -> Result<Bytes, RowFault> {
    let (example, counter) = (half(example)?, half(counter)?);
    told(
        alloc,
        match verdict_of(&example, &counter) {
            Verdict::Holds => "true",
            Verdict::Fails => "false",
            Verdict::Mixed => "mixed",
            Verdict::Contradictory => "contradictory",
            Verdict::Undecided => "undecided",
        },
    )
}
