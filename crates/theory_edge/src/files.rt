ghost use Rattle.std.specs.Prelude.{◌≡◌, ℕ, ◌+◌, List, Some, IfOk, take, string_bytes};
ghost use Rattle.theory_meaning.specs.Faults.{HasCause, one_more};
ghost use Rattle.theory_edge.specs.declared.files.EndFault.TheVariants.{NoMemory};
ghost use Rattle.theory_edge.specs.Files.{FilesTold, IsRead, faults_after};

use std::alloc::{AllocError, AllocFailed, Global};
use std::error::Error;
use std::fmt;
use std::marker::Model;
use theory_points::{Bytes, NoMemory};

/// Why a read gave no bytes; after it the files can be asked again.
#[derive(Clone, Copy, Debug, PartialEq, Eq)]
pub enum EndFault {
    /// The outside refused, as where a file is missing; it is counted.
    Failed,
    /// Want of memory, which may come at any place and isn't counted.
    NoMemory,
}

impl fmt::Display for EndFault {
    ghost use Rattle.std.specs.Prelude.{Some};
    ghost use Rattle.theory_edge.specs.Message.{message_of};

    ghost output = { λ fault. Some (message_of fault) };

    fn fmt<W: fmt::Write>(&self, f: &mut fmt::Formatter<W>) -> fmt::Result {
        f.write_str(match self {
            EndFault::Failed => "the outside failed",
            EndFault::NoMemory => "no memory",
        })
    }
}

impl Error for EndFault {}

impl From<NoMemory> for EndFault {
    ghost from_gives = { λ _ e. e ≡ NoMemory };

    fn from(_: NoMemory) -> Self {
        EndFault::NoMemory
    }
}

impl From<AllocError> for EndFault {
    ghost from_gives = { λ _ e. e ≡ NoMemory };

    fn from(_: AllocError) -> Self {
        EndFault::NoMemory
    }
}

impl<T: Drop> From<AllocFailed<T>> for EndFault {
    ghost from_gives = { λ _ e. e ≡ NoMemory };

    fn from(_: AllocFailed<T>) -> Self {
        EndFault::NoMemory
    }
}

/// Files that are read by name, one call a file.
pub trait Files {
    /// The texts, how many reads were made, the last of them, and how often one failed.
    ghost told: { Self → FilesTold };

    /// The first bytes of the named text, at most one more than the limit.
    fn read(&mut self, alloc: Global, name: String, limit: usize) -> Result<Bytes, EndFault>
        ensures read { IfOk result (λ bytes.
            IsRead (told self.old).texts (string_bytes name) limit bytes) }
        ensures same { (told self.new).texts ≡ (told self.old).texts }

        // A read counts as one, whatever it gives, and the files were asked for this name.
        ensures once { (told self.new).reads ≡ one_more (told self.old).reads }
        ensures asked { (told self.new).asked ≡ Some (string_bytes name, (told self.old).faults) }
        ensures cause { HasCause EndFault.Failed (told self.old).faults (told self.new).faults
            result };

    /// How often a call has failed; it stands still at 2^64 - 1.
    fn faults(&self) -> u64
        ensures { result ≡ (told self.now).faults };
}

/// The name of the last read, and the count of faults when it began.
#[derive(Debug, Drop)]
pub(crate) struct Asked {
    name: String,
    faults: u64,
}

impl Model for Asked {
    ghost Value = { List ℕ × ℕ };

    ghost view = { λ a. (string_bytes a.name, a.faults) };
}

impl Asked {
    pub(crate) fn new(name: String, faults: u64) -> Self
        ensures { result ≡ (string_bytes name, faults) }
    {
        Asked { name, faults }
    }
}

/// The count of faults after a read that began at `faults`.
pub(crate) fn count_after(faults: u64, answer: &Result<Bytes, EndFault>) -> u64
    ensures { result ≡ faults_after faults answer.now }
{
    match answer {
        Err(EndFault::Failed) => faults.saturating_add(1),
        _ => faults,
    }
}

/// The first bytes of a text, at most one more than the limit.
pub(crate) fn front(alloc: Global, text: &[u8], limit: usize) -> Result<Bytes, NoMemory>
    ensures { IfOk result (λ bytes. bytes ≡ take (limit + 1) text.now) }
{
    if limit < text.len() {
        Bytes::from_slice(alloc, &text[..limit + 1])
    } else {
        Bytes::from_slice(alloc, text)
    }
}
