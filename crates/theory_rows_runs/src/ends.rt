//! Files and sinks in memory, of whose calls some fail, and ends that never do.

use std::alloc::Global;
use theory_edge::{
    Calls, EndFault, Failed, Files, MemFiles, MemSink, MemText, MemTexts, Sink, SureFiles, SureSink,
};
use theory_points::{Bytes, Name};
use theory_rows_method::fault::RowFault;
use theory_rows_method::pieces::small;
use theory_rows_method::telling::{add_apart, add_whole};

/// The only file of a run.
pub fn texts(alloc: Global, name: &str, text: &[u8]) -> Result<MemTexts, RowFault> {
    let mut texts = MemTexts::new(alloc);
    add_text(alloc, &mut texts, name, text)?;
    Ok(texts)
}

fn add_text(alloc: Global, texts: &mut MemTexts, name: &str, text: &[u8]) -> Result<(), RowFault> {
    let name = Name::from_slice(alloc, name.as_bytes())?;
    let text = Bytes::from_slice(alloc, text)?;
    Ok(texts.push(MemText { name, text })?)
}

/// The calls of these numbers, between commas.
pub fn failing(alloc: Global, field: &str) -> Result<Calls, RowFault> {
    let mut numbers = Vec::new(alloc);
    for part in field.split(',') {
        let part = part.trim();
        if !part.is_empty() {
            numbers.push(u64::from(small(part)?))?;
        }
    }
    Ok(Calls::from_slice(alloc, numbers.as_slice())?)
}

/// The files of the rows: `half` stands twice, and `empty` has no byte.
fn three_texts(alloc: Global) -> Result<MemTexts, RowFault> {
    let mut texts = MemTexts::new(alloc);
    for (name, text) in [("half", "declare p"), ("empty", ""), ("half", "shadowed")] {
        add_text(alloc, &mut texts, name, text.as_bytes())?;
    }
    Ok(texts)
}

/// What is read under each name with a limit behind it, and the count of faults; `!` for a fault.
pub fn reads(alloc: Global, fails: &str, calls: &str) -> Result<Bytes, RowFault> {
    let mut files = MemFiles::new(three_texts(alloc)?, failing(alloc, fails)?);
    let mut text = Bytes::new(alloc);
    for call in calls.split(',') {
        let piece = read(alloc, &mut files, call.trim())?;
        add_counted(alloc, &mut text, piece.as_slice(), files.faults())?;
    }
    Ok(text)
}

fn read<F: Files>(alloc: Global, files: &mut F, call: &str) -> Result<Bytes, RowFault> {
    let (name, limit) = match call.split_once(' ') {
        Some((name, limit)) => (name, small(limit)?),
        None => return Err(RowFault::Unreadable),
    };
    let name = String::from_str(alloc, name)?;
    match files.read(alloc, name, limit as usize) {
        Ok(bytes) => Ok(bytes),
        Err(EndFault::Failed) => Ok(Bytes::from_slice(alloc, b"!")?),
        Err(EndFault::NoMemory) => Err(RowFault::Memory),
    }
}

/// What a sink with this room holds after each piece, and its count of faults; `!` behind a fault.
pub fn writes(alloc: Global, room: &str, fails: &str, pieces: &str) -> Result<Bytes, RowFault> {
    let mut sink = MemSink::new(alloc, small(room)? as usize, failing(alloc, fails)?)?;
    let mut text = Bytes::new(alloc);
    for piece in pieces.split(',') {
        let answer = sink.write(piece.trim().as_bytes());
        let mut held = Bytes::from_slice(alloc, sink.held())?;
        held.extend(mark(answer))?;
        add_counted(alloc, &mut text, held.as_slice(), sink.faults())?;
    }
    Ok(text)
}

fn mark(answer: Result<(), Failed>) -> &'static [u8] {
    match answer {
        Ok(()) => b"".as_slice(),
        Err(Failed) => b"!".as_slice(),
    }
}

/// Adds a piece with a count of faults behind it.
pub fn add_counted(
    alloc: Global,
    text: &mut Bytes,
    piece: &[u8],
    faults: u64,
) -> Result<(), RowFault> {
    add_apart(text, b"; ", piece)?;
    text.extend(b" ")?;
    add_whole(alloc, text, i128::from(faults))
}

/// What a file that never fails gives under a name with a limit, written to a sink that never does.
pub fn sure(alloc: Global, held: &str, call: &str) -> Result<Bytes, RowFault> {
    let mut files = SureFiles::new(Bytes::from_slice(alloc, held.as_bytes())?);
    let mut sink = SureSink::new();
    let piece = read(alloc, &mut files, call)?;
    let answer = sink.write(piece.as_slice());
    let mut all = Bytes::from_slice(alloc, piece.as_slice())?;
    all.extend(mark(answer))?;
    Ok(all)
}
