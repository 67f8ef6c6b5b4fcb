ghost use Rattle.std.specs.Prelude.{◌≡◌, IfOk, OnErr};
ghost use Rattle.theory_session.specs.Run.{refused, no_memory};
ghost use Rattle.theory_session.specs.SlowDesk.{reply_of};

use crate::slow::memory::NoMemory;
use crate::slow::texts::{EditFault, ModelFault, TextFault};

/// Why a creation is refused, in the order of the checks.
#[derive(Clone, Copy, Debug, PartialEq, Eq)]
pub enum CreateRefusal {
    Text(TextFault),
    Model(ModelFault),
    IdReused(usize),
    NameTaken,
    ModelsFull,
    TextFull,
}

/// Why an edit is refused, in the order of the checks.
#[derive(Clone, Copy, Debug, PartialEq, Eq)]
pub enum EditRefusal {
    UnknownModel,
    IdReused(usize),
    Stale(usize),
    Text(TextFault),
    Edit(EditFault),
    VersionsFull,
    TextFull,
}

/// Why a version isn't shown; where the model has none of this number, with that of its last one.
#[derive(Clone, Copy, Debug, PartialEq, Eq)]
pub enum ShowRefusal {
    UnknownModel,
    UnknownVersion(usize),
}

/// Why a request is refused.
#[derive(Clone, Copy, Debug, PartialEq, Eq)]
pub enum Refusal {
    Creation(CreateRefusal),
    Edit(EditRefusal),
    Show(ShowRefusal),
    KeeperFault,
    NoMemory,
}

/// A version by its model and its number.
#[derive(Debug, Drop)]
pub struct ModelVersion {
    pub model: Vec<u8>,
    pub version: usize,
}

/// A reply to a command; that of a list gives each model with its last version.
#[derive(Debug, Drop)]
pub enum Reply {
    Created(ModelVersion),
    Edited(ModelVersion),
    /// With its printed text.
    Shown(ModelVersion, Vec<u8>),
    Listed(Vec<ModelVersion>),
    Refused(Refusal),
}

impl From<NoMemory> for Reply {
    ghost use Rattle.theory_session.specs.SlowDesk.{reply_of};
    ghost use Rattle.theory_session.specs.Run.{refused, no_memory};

    ghost from_gives = { λ _ reply. reply_of reply ≡ refused no_memory };

    fn from(_: NoMemory) -> Self {
        Reply::Refused(Refusal::NoMemory)
    }
}

/// The reply, unless memory was wanting for it.
pub fn or_no_memory(reply: Result<Reply, NoMemory>) -> Reply
    ensures ok { IfOk reply (λ given. result ≡ given) }
    ensures err { OnErr reply (reply_of result ≡ refused no_memory) }
{
    match reply {
        Ok(reply) => reply,
        Err(fault) => Reply::from(fault),
    }
}
