ghost use Rattle.std.specs.Prelude.{◌≡◌, [], ◌∷◌, ◌++◌, OnOk, OnErr};

use std::alloc::Global;
use std::error::Error;
use std::fmt;
use std::marker::Model;
use theory_points::{Bytes, Name, NoMemory};

/// The text of a version.
#[derive(Drop)]
pub struct Shown {
    pub model: Name,
    pub version: u32,
    /// The printed lines, each ended by a line feed.
    pub text: Bytes,
}

/// Why a version isn't shown, in the order of the checks.
#[derive(Clone, Copy, Debug, PartialEq, Eq)]
pub enum ShowFault {
    /// There is no model of this name.
    UnknownModel,
    /// The model has no version of that number; its last one has this number.
    UnknownVersion(u32),
    /// Want of memory, which may come at any place.
    Memory,
}

impl fmt::Display for ShowFault {
    ghost use Rattle.std.specs.Prelude.{Some};
    ghost use Rattle.theory_versions.specs.Message.{show_message};

    ghost output = { λ fault. Some (show_message fault) };

    fn fmt<W: fmt::Write>(&self, f: &mut fmt::Formatter<W>) -> fmt::Result {
        f.write_str(match self {
            ShowFault::UnknownModel => "there is no such model",
            ShowFault::UnknownVersion(_) => "the model has no such version",
            ShowFault::Memory => "no memory",
        })
    }
}

impl Error for ShowFault {}

/// A model and the number of its last version.
#[derive(Drop)]
pub struct Last {
    pub model: Name,
    pub version: u32,
}

/// Models with their last versions, in the order of their creation.
#[derive(Drop)]
pub struct Listed {
    items: Vec<Last>,
}

impl Model for Listed {
    ghost use Rattle.std.specs.Prelude.{List};
    ghost use Rattle.theory_versions.specs.declared.shown.Last.{Last};

    ghost Value = { List Last };

    ghost view = { λ l. l.items.items };
}

impl Listed {
    pub fn new(alloc: Global) -> Self
        ensures { result ≡ [] }
    {
        Listed {
            items: Vec::new(alloc),
        }
    }

    pub fn as_slice(&self) -> &[Last]
        ensures { result.now ≡ self.now }
    {
        self.items.as_slice()
    }

    /// Adds a model at the end.
    pub fn push(&mut self, last: Last) -> Result<(), NoMemory>
        ensures ok { OnOk result (self.new ≡ self.old ++ last ∷ []) }
        ensures err { OnErr result (self.new ≡ self.old) }
    {
        self.items.push(last)?;
        Ok(())
    }
}
