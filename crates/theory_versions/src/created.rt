use std::error::Error;
use std::fmt;
use theory_model::ModelFault;
use theory_points::Name;
use theory_text::TextError;

/// A model that was created.
#[derive(Drop)]
pub struct Created {
    pub model: Name,
    /// The number of its first version.
    pub version: u32,
}

/// Why a creation is refused, in the order of the checks.
#[derive(Clone, Copy, Debug, PartialEq, Eq)]
pub enum CreateFault {
    /// The body spells no lines.
    Text(TextError),
    /// The lines are no model.
    Model(ModelFault),
    /// The model is there, and its version of this number has the id with another body.
    IdReused(u32),
    /// The model is there, and its version 1 has another id.
    NameTaken,
    /// There are 1,000 models.
    ModelsFull,
    /// The bodies and printed texts would pass 67,108,864 bytes.
    TextFull,
    /// The keeper failed; it is counted there.
    KeeperFault,
    /// Want of memory, which may come at any place.
    Memory,
}

impl fmt::Display for CreateFault {
    ghost use Rattle.std.specs.Prelude.{Some};
    ghost use Rattle.theory_versions.specs.Message.{create_message};

    ghost output = { λ fault. Some (create_message fault) };

    fn fmt<W: fmt::Write>(&self, f: &mut fmt::Formatter<W>) -> fmt::Result {
        f.write_str(match self {
            CreateFault::Text(_) => "the body spells no lines",
            CreateFault::Model(_) => "the lines are no model",
            CreateFault::IdReused(_) => "the id was used with another body",
            CreateFault::NameTaken => "the name is taken",
            CreateFault::ModelsFull => "there are 1,000 models",
            CreateFault::TextFull => "the texts would pass the limit",
            CreateFault::KeeperFault => "the keeper failed",
            CreateFault::Memory => "no memory",
        })
    }
}

impl Error for CreateFault {}
