ghost use Rattle.std.specs.Prelude.{◌≡◌, [], ◌∷◌, ◌++◌, false, IfOk, OnOk, OnErr, IsTrue};
ghost use Rattle.theory_session.specs.SlowDesk.{reply_of, entry_of, entries_of};
ghost use Rattle.theory_session.specs.SlowSteps.{accepted_by, IsOwn, Adds};

use crate::slow::memory::NoMemory;
use crate::slow::replies::{ModelVersion, Refusal, Reply, or_no_memory};
use crate::slow::texts::Text;
use crate::slow::versions::{Row, Version};
use std::alloc::Global;

/// What a change is; its replies differ by that.
#[derive(Clone, Copy, Debug, PartialEq, Eq)]
pub enum Change {
    Creation,
    Edit,
}

/// The reply to a change that made this row, whenever it was accepted.
pub fn accepted(alloc: Global, change: Change, row: &Row) -> Result<Reply, NoMemory>
    ensures reply { IfOk result (λ reply.
        reply_of reply ≡ accepted_by change row.now.model.items row.now.version) }
    ensures own { IfOk result IsOwn }
{
    let version = ModelVersion {
        model: Vec::from_slice(alloc, row.model.as_slice())?,
        version: row.version,
    };
    Ok(match change {
        Change::Creation => Reply::Created(version),
        Change::Edit => Reply::Edited(version),
    })
}

/// Adds a version behind the others, where the keeper takes its row.
pub fn add<T: Text>(
    alloc: Global,
    versions: &mut Vec<Version<T>>,
    version: Version<T>,
    change: Change,
    kept: bool,
) -> Reply
    ensures step { Adds change (entries_of T.lines versions.old.items) (entry_of T.lines version)
        (reply_of result) (entries_of T.lines versions.new.items) }
    ensures kept { IsTrue kept → IsOwn result }
    ensures failed { kept ≡ false → versions.new.items ≡ versions.old.items }
{
    if !kept {
        return Reply::Refused(Refusal::KeeperFault);
    }
    or_no_memory(push(alloc, versions, version, change))
}

fn push<T: Text>(
    alloc: Global,
    versions: &mut Vec<Version<T>>,
    version: Version<T>,
    change: Change,
) -> Result<Reply, NoMemory>
    ensures reply { IfOk result (λ reply.
        reply_of reply ≡ accepted_by change version.row.model.items version.row.version) }
    ensures own { IfOk result IsOwn }
    ensures ok { OnOk result (versions.new.items ≡ versions.old.items ++ version ∷ []) }
    ensures err { OnErr result (versions.new.items ≡ versions.old.items) }
{
    let reply = accepted(alloc, change, &version.row)?;
    versions.push(version)?;
    Ok(reply)
}
