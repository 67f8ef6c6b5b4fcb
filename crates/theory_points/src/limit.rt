ghost use Rattle.std.specs.Prelude.{◌≡◌};
ghost use Rattle.theory_points.specs.declared.limit.Limit.TheVariants.{Memory};

use std::alloc::{AllocError, AllocFailed};
use std::error::Error;
use std::fmt;

/// Want of memory, which any call that allocates may answer at any place.
#[derive(Clone, Copy, Debug, PartialEq, Eq)]
pub struct NoMemory;

impl fmt::Display for NoMemory {
    ghost use Rattle.std.specs.Prelude.{Some};
    ghost use Rattle.theory_points.specs.Message.{memory_message};

    ghost output = { λ _. Some memory_message };

    fn fmt<W: fmt::Write>(&self, f: &mut fmt::Formatter<W>) -> fmt::Result {
        f.write_str("no memory")
    }
}

impl Error for NoMemory {}

impl From<AllocError> for NoMemory {
    fn from(_: AllocError) -> Self {
        NoMemory
    }
}

impl<T: Drop> From<AllocFailed<T>> for NoMemory {
    fn from(_: AllocFailed<T>) -> Self {
        NoMemory
    }
}

/// A result passes a stated limit: the fault of calls that take no memory.
#[derive(Clone, Copy, Debug, PartialEq, Eq)]
pub struct Wide;

impl fmt::Display for Wide {
    ghost use Rattle.std.specs.Prelude.{Some};
    ghost use Rattle.theory_points.specs.Message.{limit_message};

    ghost output = { λ _. Some limit_message };

    fn fmt<W: fmt::Write>(&self, f: &mut fmt::Formatter<W>) -> fmt::Result {
        f.write_str("a result passes the limit")
    }
}

impl Error for Wide {}

/// Why a call that allocates gives no result.
#[derive(Clone, Copy, Debug, PartialEq, Eq)]
pub enum Limit {
    /// The result passes a stated limit.
    Wide,
    /// Want of memory.
    Memory,
}

impl fmt::Display for Limit {
    ghost use Rattle.std.specs.Prelude.{Some};
    ghost use Rattle.theory_points.specs.Message.{message_of};

    ghost output = { λ limit. Some (message_of limit) };

    fn fmt<W: fmt::Write>(&self, f: &mut fmt::Formatter<W>) -> fmt::Result {
        f.write_str(match self {
            Limit::Wide => "a result passes the limit",
            Limit::Memory => "no memory",
        })
    }
}

impl Error for Limit {}

impl From<NoMemory> for Limit {
    ghost from_gives = { λ _ e. e ≡ Memory };

    fn from(_: NoMemory) -> Self {
        Limit::Memory
    }
}
