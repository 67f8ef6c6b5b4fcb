ghost use Rattle.std.specs.Prelude.{◌≡◌, map, IfOk, IfSome};
ghost use Rattle.theory_session.specs.Lookup as lookup;
ghost use Rattle.theory_session.specs.Run as run;
ghost use Rattle.theory_session.specs.SlowDesk.{pair_of, reply_of, entry_of, entries_of};
ghost use Rattle.theory_session.specs.Step as step;
ghost use Rattle.theory_session.specs.Step.{Tells};

use crate::slow::lookups::{last_version, version_at};
use crate::slow::memory::NoMemory;
use crate::slow::replies::{ModelVersion, Refusal, Reply, ShowRefusal, or_no_memory};
use crate::slow::texts::Text;
use crate::slow::versions::Version;
use std::alloc::Global;

/// Shows a version, the last one where no number is given.
pub fn show<T: Text>(
    alloc: Global,
    versions: &[Version<T>],
    model: &[u8],
    number: Option<usize>,
) -> Reply
    ensures { Tells (entries_of T.lines versions.now)
        (step.showing (lookup.find_version model.now number (entries_of T.lines versions.now)))
        (reply_of result) (entries_of T.lines versions.now) }
{
    let last = last_version(versions, model);
    if last == 0 {
        return Reply::Refused(Refusal::Show(ShowRefusal::UnknownModel));
    }
    match version_at(versions, model, number.unwrap_or(last)) {
        Some(version) => or_no_memory(shown(alloc, version)),
        None => Reply::Refused(Refusal::Show(ShowRefusal::UnknownVersion(last))),
    }
}

fn shown<T: Text>(alloc: Global, version: &Version<T>) -> Result<Reply, NoMemory>
    ensures { IfOk result (λ reply.
        reply_of reply ≡ step.showing (lookup.found (entry_of T.lines version.now))) }
{
    let number = version.row.version;
    let named = named(alloc, version.row.model.as_slice(), number)?;
    Ok(Reply::Shown(named, version.text.print(alloc)?))
}

fn named(alloc: Global, model: &[u8], version: usize) -> Result<ModelVersion, NoMemory>
    ensures { IfOk result (λ named. pair_of named ≡ (model.now, version)) }
{
    Ok(ModelVersion {
        model: Vec::from_slice(alloc, model)?,
        version,
    })
}

/// Lists each model with its last version.
pub fn list<T: Text>(alloc: Global, versions: &[Version<T>]) -> Reply
    ensures { Tells (entries_of T.lines versions.now)
        (run.listed (lookup.listed_in (entries_of T.lines versions.now)))
        (reply_of result) (entries_of T.lines versions.now) }
{
    match models(alloc, versions) {
        Ok(models) => Reply::Listed(models),
        Err(fault) => Reply::from(fault),
    }
}

fn models<T: Text>(alloc: Global, versions: &[Version<T>]) -> Result<Vec<ModelVersion>, NoMemory>
    ensures { IfOk result (λ models.
        map pair_of models.items ≡ lookup.listed_in (entries_of T.lines versions.now)) }
{
    let mut models = Vec::new(alloc);
    for version in versions {
        if version.row.version == 1 {
            let model = version.row.model.as_slice();
            models.push(named(alloc, model, last_version(versions, model))?)?;
        }
    }
    Ok(models)
}
