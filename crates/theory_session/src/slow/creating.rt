ghost use Rattle.std.specs.Prelude.{◌≡◌, false, List, IfOk, IfErr, IsTrue};
ghost use Rattle.theory_meaning.specs.ModelFault.{model_fault};
ghost use Rattle.theory_session.specs.Accepted.{creation_of};
ghost use Rattle.theory_session.specs.Creation as creation;
ghost use Rattle.theory_session.specs.Lookup as lookup;
ghost use Rattle.theory_session.specs.Row.{Entry, present_format};
ghost use Rattle.theory_session.specs.Run as run;
ghost use Rattle.theory_session.specs.Run.{of_creation, created};
ghost use Rattle.theory_session.specs.SlowDesk.{create_request_of, create_refusal_of, reply_of, entry_of, entries_of};
ghost use Rattle.theory_session.specs.SlowSteps.{IsOwn, IsFirst, ComesTo, JudgesCreation};
ghost use Rattle.theory_session.specs.Step.{Creates, Changes};

use crate::slow::adding::{Change, accepted, add};
use crate::slow::lookups::{count_models, version_at};
use crate::slow::memory::NoMemory;
use crate::slow::replies::{CreateRefusal, Refusal, Reply};
use crate::slow::sizes::is_room;
use crate::slow::texts::{Text, Unread};
use crate::slow::versions::{CreateRequest, PRESENT_FORMAT, Row, Version};
use std::alloc::Global;

const MOST_MODELS: usize = 1000;

/// Creates the model of the text that the body spells; `kept` is whether a keeper takes its row.
pub fn create<T: Text>(
    alloc: Global,
    versions: &mut Vec<Version<T>>,
    request: CreateRequest,
    kept: bool,
) -> Reply
    ensures step { Creates (entries_of T.lines versions.old.items) (create_request_of request)
        (reply_of result) (entries_of T.lines versions.new.items) }

    // Where the keeper takes the row it isn't said to fail, and else nothing is added.
    ensures kept { IsTrue kept → IsOwn result }
    ensures failed { kept ≡ false → versions.new.items ≡ versions.old.items }
{
    match judge(alloc, versions.as_slice(), request) {
        Ok(version) => add(alloc, versions, version, Change::Creation, kept),
        Err(reply) => reply,
    }
}

fn judge<T: Text>(
    alloc: Global,
    versions: &[Version<T>],
    request: CreateRequest,
) -> Result<Version<T>, Reply>
    ensures checks { JudgesCreation T.lines (entries_of T.lines versions.now)
        (create_request_of request) result }
    ensures own { IfErr result IsOwn }
{
    let version = read(alloc, request)?;
    judge_lines(alloc, versions, version)
}

fn refused(refusal: CreateRefusal) -> Reply
    ensures { reply_of result ≡ run.refused (of_creation (create_refusal_of refusal)) }
{
    Reply::Refused(Refusal::Creation(refusal))
}

/// Version 1 of the text that the body spells.
fn read<T: Text>(alloc: Global, request: CreateRequest) -> Result<Version<T>, Reply>
    ensures first { IsFirst T.lines (create_request_of request) result }
    ensures own { IfErr result IsOwn }
{
    match T::read(alloc, request.body.as_slice()) {
        Ok(text) => Ok(first_version(alloc, request, text)?),
        Err(Unread::Fault(fault)) => Err(refused(CreateRefusal::Text(fault))),
        Err(Unread::Memory) => Err(Reply::from(NoMemory)),
    }
}

fn first_version<T: Text>(
    alloc: Global,
    request: CreateRequest,
    text: T,
) -> Result<Version<T>, NoMemory>
    ensures first { IfOk result (λ version. entry_of T.lines version
        ≡ creation.first_entry present_format (create_request_of request) (T.lines text)) }
    ensures text { IfOk result (λ version. version.text ≡ text) }
{
    let row = Row {
        format: PRESENT_FORMAT,
        model: text.name(alloc)?,
        version: 1,
        base: 0,
        id: request.id,
        body: request.body,
    };
    Ok(Version { row, text })
}

fn judge_lines<T: Text>(
    alloc: Global,
    versions: &[Version<T>],
    version: Version<T>,
) -> Result<Version<T>, Reply>
    ensures checks { ComesTo T.lines of_creation created (entries_of T.lines versions.now)
        (creation.judge_lines (entries_of T.lines versions.now)
        (creation_of (entry_of T.lines version).row) (entry_of T.lines version)
        (model_fault (T.lines version.text))) result }
    ensures own { IfErr result IsOwn }
{
    if let Some(fault) = version.text.model_fault(alloc)? {
        return Err(refused(CreateRefusal::Model(fault)));
    }
    judge_named(alloc, versions, version)
}

fn judge_named<T: Text>(
    alloc: Global,
    versions: &[Version<T>],
    version: Version<T>,
) -> Result<Version<T>, Reply>
    ensures checks { ComesTo T.lines of_creation created (entries_of T.lines versions.now)
        (creation.judge_named (entries_of T.lines versions.now)
        (creation_of (entry_of T.lines version).row) (entry_of T.lines version)
        (lookup.version_at version.row.model.items 1 (entries_of T.lines versions.now)))
        result }
    ensures own { IfErr result IsOwn }
{
    match version_at(versions, version.row.model.as_slice(), 1) {
        Some(old) => Err(judge_again(alloc, &version, old)?),
        None => judge_new(alloc, versions, version),
    }
}

/// The reply where the model is there, with this version 1.
fn judge_again<T: Text>(
    alloc: Global,
    version: &Version<T>,
    old: &Version<T>,
) -> Result<Reply, NoMemory>
    ensures checks { IfOk result (λ reply. (es : List Entry) → Changes of_creation created es
        (creation.judge_again (creation_of (entry_of T.lines version.now).row)
        (entry_of T.lines old.now)) (reply_of reply) es) }
    ensures own { IfOk result IsOwn }
{
    if old.row.id.as_slice() != version.row.id.as_slice() {
        return Ok(refused(CreateRefusal::NameTaken));
    }
    if old.row.body.as_slice() != version.row.body.as_slice() {
        return Ok(refused(CreateRefusal::IdReused(1)));
    }
    accepted(alloc, Change::Creation, &old.row)
}

fn judge_new<T: Text>(
    alloc: Global,
    versions: &[Version<T>],
    version: Version<T>,
) -> Result<Version<T>, Reply>
    ensures checks { ComesTo T.lines of_creation created (entries_of T.lines versions.now)
        (creation.judge_new (entries_of T.lines versions.now) (entry_of T.lines version)) result }
    ensures own { IfErr result IsOwn }
{
    if count_models(versions) >= MOST_MODELS {
        return Err(refused(CreateRefusal::ModelsFull));
    }
    if !is_room(alloc, versions, &version)? {
        return Err(refused(CreateRefusal::TextFull));
    }
    Ok(version)
}
