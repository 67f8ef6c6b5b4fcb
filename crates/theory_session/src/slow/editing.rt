ghost use Rattle.std.specs.Prelude.{◌≡◌, ◌<◌, false, List, IfOk, IfErr, IsTrue};
ghost use Rattle.theory_session.specs.Editing as editing;
ghost use Rattle.theory_session.specs.Lookup as lookup;
ghost use Rattle.theory_session.specs.Row.{Entry, present_format};
ghost use Rattle.theory_session.specs.Run as run;
ghost use Rattle.theory_session.specs.Run.{of_edit};
ghost use Rattle.theory_session.specs.SlowDesk.{edit_request_of, edit_refusal_of, reply_of, entry_of, entries_of};
ghost use Rattle.theory_session.specs.SlowSteps.{IsOwn, ComesTo, Decides, IsChanged, JudgesEdit};
ghost use Rattle.theory_session.specs.Step.{Changes, Edits};

use crate::slow::adding::{Change, accepted, add};
use crate::slow::lookups::{last_version, version_at, version_by};
use crate::slow::memory::NoMemory;
use crate::slow::replies::{EditRefusal, Refusal, Reply};
use crate::slow::sizes::is_room;
use crate::slow::texts::{Text, Unchanged};
use crate::slow::versions::{EditRequest, PRESENT_FORMAT, Row, Version};
use std::alloc::Global;

const MOST_VERSIONS: usize = 10_000;

/// Adds a version of a model by the operations that the body spells; `kept` is whether a keeper
/// takes its row.
pub fn edit<T: Text>(
    alloc: Global,
    versions: &mut Vec<Version<T>>,
    request: EditRequest,
    kept: bool,
) -> Reply
    ensures step { Edits (entries_of T.lines versions.old.items) (edit_request_of request)
        (reply_of result) (entries_of T.lines versions.new.items) }

    // Where the keeper takes the row it isn't said to fail, and else nothing is added.
    ensures kept { IsTrue kept → IsOwn result }
    ensures failed { kept ≡ false → versions.new.items ≡ versions.old.items }
{
    match judge(alloc, versions.as_slice(), request) {
        Ok(version) => add(alloc, versions, version, Change::Edit, kept),
        Err(reply) => reply,
    }
}

fn judge<T: Text>(
    alloc: Global,
    versions: &[Version<T>],
    request: EditRequest,
) -> Result<Version<T>, Reply>
    ensures checks { JudgesEdit T.lines (entries_of T.lines versions.now) (edit_request_of request)
        result }
    ensures own { IfErr result IsOwn }
{
    let last = last_version(versions, request.model.as_slice());
    let Some(latest) = version_at(versions, request.model.as_slice(), last) else {
        return Err(refused(EditRefusal::UnknownModel));
    };
    judge_base(alloc, versions, &request, last)?;
    let text = changed(alloc, &request, &latest.text)?;
    if last >= MOST_VERSIONS {
        return Err(refused(EditRefusal::VersionsFull));
    }
    judge_size(alloc, versions, next_version(request, last, text))
}

fn refused(refusal: EditRefusal) -> Reply
    ensures { reply_of result ≡ run.refused (of_edit (edit_refusal_of refusal)) }
{
    Reply::Refused(Refusal::Edit(refusal))
}

/// What the id and the base of an edit decide, where the model is there with this last version.
fn judge_base<T: Text>(
    alloc: Global,
    versions: &[Version<T>],
    request: &EditRequest,
    last: usize,
) -> Result<(), Reply>
    ensures checks { Decides (entries_of T.lines versions.now) (edit_request_of request.now)
        (editing.judge_base (edit_request_of request.now) last (editing.with_id
        request.now.id.items
        (lookup.versions_of request.now.model.items (entries_of T.lines versions.now))))
        result }
    ensures own { IfErr result IsOwn }
{
    if let Some(earlier) = version_by(versions, request.model.as_slice(), request.id.as_slice()) {
        return Err(judge_earlier(alloc, request, earlier)?);
    }
    if request.base != last {
        return Err(refused(EditRefusal::Stale(last)));
    }
    Ok(())
}

/// The reply where a request with this id made this version.
fn judge_earlier<T: Text>(
    alloc: Global,
    request: &EditRequest,
    earlier: &Version<T>,
) -> Result<Reply, NoMemory>
    ensures checks { IfOk result (λ reply. (es : List Entry) → Changes of_edit run.edited es
        (editing.judge_earlier (edit_request_of request.now) (entry_of T.lines earlier.now))
        (reply_of reply) es) }
    ensures own { IfOk result IsOwn }
{
    if earlier.row.base == request.base && earlier.row.body.as_slice() == request.body.as_slice() {
        return accepted(alloc, Change::Edit, &earlier.row);
    }
    Ok(refused(EditRefusal::IdReused(earlier.row.version)))
}

/// The text after the operations that the body spells.
fn changed<T: Text>(alloc: Global, request: &EditRequest, latest: &T) -> Result<T, Reply>
    ensures checks { IsChanged T.lines (edit_request_of request.now) (T.lines latest.now) result }
    ensures own { IfErr result IsOwn }
{
    match latest.edited(alloc, request.body.as_slice()) {
        Ok(text) => Ok(text),
        Err(Unchanged::Read(fault)) => Err(refused(EditRefusal::Text(fault))),
        Err(Unchanged::Edit(fault)) => Err(refused(EditRefusal::Edit(fault))),
        Err(Unchanged::Memory) => Err(Reply::from(NoMemory)),
    }
}

/// The version with this text behind the last one.
fn next_version<T: Text>(request: EditRequest, last: usize, text: T) -> Version<T>
    requires few { last < 10000 }
    ensures next { entry_of T.lines result
        ≡ editing.next_entry present_format (edit_request_of request) last (T.lines text) }
{
    let row = Row {
        format: PRESENT_FORMAT,
        model: request.model,
        version: last + 1,
        base: last,
        id: request.id,
        body: request.body,
    };
    Version { row, text }
}

fn judge_size<T: Text>(
    alloc: Global,
    versions: &[Version<T>],
    version: Version<T>,
) -> Result<Version<T>, Reply>
    requires few { version.row.base < 10000 }
    ensures checks { ComesTo T.lines of_edit run.edited (entries_of T.lines versions.now)
        (editing.judge_next (entries_of T.lines versions.now) (entry_of T.lines version)) result }
    ensures own { IfErr result IsOwn }
{
    if !is_room(alloc, versions, &version)? {
        return Err(refused(EditRefusal::TextFull));
    }
    Ok(version)
}
