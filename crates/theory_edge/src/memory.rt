ghost use Rattle.std.specs.Prelude.{◌≡◌, ◌⊎◌, ℕ, ◌≤◌, ◌↔◌, List, [], ◌∷◌, ◌++◌, map, Contains, option_copied, None, Some, IfOk, OnOk, OnErr, IsErr, IsTrue, string_bytes, vec_len, vec_capacity};
ghost use Rattle.theory_meaning.specs.Faults.{HasCause, Rose, Took, TookPart, one_more};
ghost use Rattle.theory_edge.specs.Files.{IsRead};
ghost use Rattle.theory_edge.specs.Memory.{MemFilesState, MemSinkState, unread, unwritten, entry_of, text_under, mem_texts, mem_told, mem_sink_told, ReadFails, FailsWhere, after_read, WriteFails, after_write};

use crate::files::{Asked, EndFault, Files, count_after, front};
use crate::sink::{Failed, Sink};
use std::alloc::Global;
use std::marker::Model;
use theory_points::{Bytes, Name, NoMemory};

/// A text and the name that it is read under.
#[derive(Debug, Drop)]
pub struct MemText {
    pub name: Name,
    pub text: Bytes,
}

/// Texts under names, of which the first with a name counts.
#[derive(Debug, Drop)]
pub struct MemTexts {
    items: Vec<MemText>,
}

impl Model for MemTexts {
    ghost Value = { List (List ℕ × List ℕ) };

    ghost view = { λ t. map entry_of t.items.items };
}

impl MemTexts {
    pub fn new(alloc: Global) -> Self
        ensures { result ≡ [] }
    {
        MemTexts {
            items: Vec::new(alloc),
        }
    }

    /// Adds a text behind the others; one with the same name before it hides it.
    pub fn push(&mut self, text: MemText) -> Result<(), NoMemory>
        ensures ok { OnOk result (self.new ≡ self.old ++ (text.name, text.text) ∷ []) }
        ensures err { OnErr result (self.new ≡ self.old) }
    {
        self.items.push(text)?;
        Ok(())
    }

    fn get(&self, name: &[u8]) -> Option<&Bytes>
        ensures { option_copied result ≡ text_under self.now name.now }
    {
        text_among(self.items.as_slice(), name)
    }
}

fn text_among<'a>(texts: &'a [MemText], name: &[u8]) -> Option<&'a Bytes>
    ensures { option_copied result ≡ text_under (map entry_of texts.now) name.now }
{
    for entry in texts {
        if entry.name.as_slice() == name {
            return Some(&entry.text);
        }
    }
    None
}

/// The numbers of calls, from 1, that are to fail.
#[derive(Debug, Drop)]
pub struct Calls {
    items: Vec<u64>,
}

impl Model for Calls {
    ghost Value = { List ℕ };

    ghost view = { λ c. c.items.items };
}

impl Calls {
    /// The list without any number, by which no call fails.
    pub fn new(alloc: Global) -> Self
        ensures { result ≡ [] }
    {
        Calls {
            items: Vec::new(alloc),
        }
    }

    pub fn from_slice(alloc: Global, numbers: &[u64]) -> Result<Self, NoMemory>
        ensures { IfOk result (λ calls. calls ≡ numbers.now) }
    {
        Ok(Calls {
            items: Vec::from_slice(alloc, numbers)?,
        })
    }

    pub fn contains(&self, call: u64) -> bool
        ensures { IsTrue result ↔ Contains self.now call }
    {
        self.items.contains(&call)
    }
}

/// Files in memory, whose reads fail at planned calls and at missing names.
#[derive(Debug, Drop)]
pub struct MemFiles {
    texts: MemTexts,
    fails: Calls,
    calls: u64,
    faults: u64,
    asking: Option<Asked>,
}

impl Model for MemFiles {
    ghost Value = { MemFilesState };

    ghost view = { λ f. record {
      texts = f.texts;
      fails = f.fails;
      calls = f.calls;
      faults = f.faults;
      asked = f.asking;
    } };
}

impl MemFiles {
    pub fn new(texts: MemTexts, fails: Calls) -> Self
        ensures { result ≡ unread texts fails }
    {
        MemFiles {
            texts,
            fails,
            calls: 0,
            faults: 0,
            asking: None,
        }
    }

    fn answer(&self, alloc: Global, name: &[u8], limit: usize) -> Result<Bytes, EndFault>
        ensures read { IfOk result (λ bytes. IsRead (mem_texts self.now) name.now limit bytes) }
        ensures fails { FailsWhere
            (Contains self.now.fails self.now.calls ⊎ (text_under self.now.texts name.now ≡ None))
            result }
    {
        if self.fails.contains(self.calls) {
            return Err(EndFault::Failed);
        }
        match self.texts.get(name) {
            Some(text) => Ok(front(alloc, text.as_slice(), limit)?),
            None => Err(EndFault::Failed),
        }
    }
}

impl Files for MemFiles {
    ghost told = { mem_told };

    fn read(&mut self, alloc: Global, name: String, limit: usize) -> Result<Bytes, EndFault>
        ensures read { IfOk result (λ bytes.
            IsRead (mem_texts self.old) (string_bytes name) limit bytes) }
        ensures same { mem_texts self.new ≡ mem_texts self.old }
        ensures once { self.new.calls ≡ one_more self.old.calls }
        ensures asked { self.new.asked ≡ Some (string_bytes name, self.old.faults) }
        ensures cause { HasCause EndFault.Failed self.old.faults self.new.faults result }

        ensures fails { FailsWhere (ReadFails self.old (string_bytes name)) result }
        ensures state { self.new ≡ after_read self.old (string_bytes name) result }
    {
        let before = self.faults;
        self.calls = self.calls.saturating_add(1);
        let answer = self.answer(alloc, name.as_bytes(), limit);
        self.faults = count_after(before, &answer);
        self.asking = Some(Asked::new(name, before));
        answer
    }

    fn faults(&self) -> u64 {
        self.faults
    }
}

/// A sink in memory with bounded room, whose writes fail at planned calls too.
#[derive(Debug, Drop)]
pub struct MemSink {
    held: Vec<u8>,
    room: usize,
    fails: Calls,
    calls: u64,
    faults: u64,
}

impl Model for MemSink {
    ghost Value = { MemSinkState };

    ghost view = { λ s. record {
      held = s.held.items;
      room = s.room;
      fails = s.fails;
      calls = s.calls;
      faults = s.faults;
    } };

    ghost invariant = { λ s. (vec_len s.held ≤ s.room) × (s.room ≤ vec_capacity s.held) };
}

impl MemSink {
    /// Takes the memory for `room` bytes, the sum of all writes, at once.
    pub fn new(alloc: Global, room: usize, fails: Calls) -> Result<Self, NoMemory>
        ensures { IfOk result (λ sink. sink ≡ unwritten room fails) }
    {
        Ok(MemSink {
            held: Vec::with_capacity(alloc, room)?,
            room,
            fails,
            calls: 0,
            faults: 0,
        })
    }

    /// The bytes of all writes that didn't fail, in their order.
    pub fn held(&self) -> &[u8]
        ensures { result.now ≡ self.now.held }
    {
        self.held.as_slice()
    }
}

impl Sink for MemSink {
    ghost told = { mem_sink_told };

    fn write(&mut self, piece: &[u8]) -> Result<(), Failed>
        ensures ok { OnOk result (Took (Some self.old.held) (Some self.new.held) piece.now) }
        ensures failed { OnErr result
            (TookPart (Some self.old.held) (Some self.new.held) piece.now) }
        ensures later { self.old.faults ≤ self.new.faults }
        ensures cause { OnErr result (Rose self.old.faults self.new.faults) }

        ensures fails { IsErr result ↔ WriteFails self.old piece.now }
        ensures state { self.new ≡ after_write self.old piece.now result }
    {
        self.calls = self.calls.saturating_add(1);
        if self.fails.contains(self.calls) || self.room - self.held.len() < piece.len() {
            self.faults = self.faults.saturating_add(1);
            return Err(Failed);
        }
        self.held.extend_from_slice(piece).unwrap();
        Ok(())
    }

    fn faults(&self) -> u64 {
        self.faults
    }
}
