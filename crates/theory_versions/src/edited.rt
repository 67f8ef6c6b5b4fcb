use std::error::Error;
use std::fmt;
use theory_model::EditFault;
use theory_points::Name;
use theory_text::TextError;

/// A model that was edited.
#[derive(Drop)]
pub struct Edited {
    pub model: Name,
    /// The number of the version that the edit made.
    pub version: u32,
}

/// Why an edit is refused, in the order of the checks.
#[derive(Clone, Copy, Debug, PartialEq, Eq)]
pub enum EditRefusal {
    /// There is no model of this name.
    UnknownModel,
    /// The version of this number has the id, with another base or body.
    IdReused(u32),
    /// The base isn't the last version, which has this number.
    Stale(u32),
    /// The body spells no operations.
    Text(TextError),
    /// The operations don't apply, or leave no model.
    Edit(EditFault),
    /// The model has 10,000 versions.
    VersionsFull,
    /// The bodies and printed texts would pass 67,108,864 bytes.
    TextFull,
    /// The keeper failed; it is counted there.
    KeeperFault,
    /// Want of memory, which may come at any place.
    Memory,
}

impl fmt::Display for EditRefusal {
    ghost use Rattle.std.specs.Prelude.{Some};
    ghost use Rattle.theory_versions.specs.Message.{edit_message};

    ghost output = { λ fault. Some (edit_message fault) };

    fn fmt<W: fmt::Write>(&self, f: &mut fmt::Formatter<W>) -> fmt::Result {
        f.write_str(match self {
            EditRefusal::UnknownModel => "there is no such model",
            EditRefusal::IdReused(_) => "the id was used with another base or body",
            EditRefusal::Stale(_) => "the base isn't the last version",
            EditRefusal::Text(_) => "the body spells no operations",
            EditRefusal::Edit(_) => "the operations leave no model",
            EditRefusal::VersionsFull => "the model has 10,000 versions",
            EditRefusal::TextFull => "the texts would pass the limit",
            EditRefusal::KeeperFault => "the keeper failed",
            EditRefusal::Memory => "no memory",
        })
    }
}

impl Error for EditRefusal {}
