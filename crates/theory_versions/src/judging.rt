ghost use Rattle.std.specs.Prelude.{◌≡◌, ◌≢◌};
ghost use Rattle.theory_session.specs.Lookup.{last_version};
ghost use Rattle.theory_session.specs.Row.{IsRequestId};
ghost use Rattle.theory_edge.specs.Rows.{IsRowFit};
ghost use Rattle.theory_versions.specs.Book.{entries_in, IsBookOf};
ghost use Rattle.theory_versions.specs.Judging.{IsJudgedNew, IsFirstJudged, IsJudgedNext, IsLateJudged, IsEditJudged};

use crate::book::Book;
use crate::created::CreateFault;
use crate::creating::{again, first_entry};
use crate::edited::EditRefusal;
use crate::editing::{changed, earlier, next_row};
use crate::entry::Entry;
use crate::judged::{Judged, grown};
use std::alloc::Global;
use theory_points::Name;

/// The greatest number of models.
const MOST_MODELS: usize = 1_000;

/// The greatest number of versions of a model.
const MOST_VERSIONS: u32 = 10_000;

impl Book {
    /// What the checks of a creation come to, whose body is of this format.
    pub fn judge_first(
        &self,
        alloc: Global,
        format: u8,
        id: &Name,
        body: &[u8],
    ) -> Result<Judged, CreateFault>
        requires book { IsBookOf self.now }
        requires id { IsRequestId id.now }
        ensures { IsFirstJudged (entries_in self.now) format
            (record { id = id.now; body = body.now }) result }
    {
        let entry = match first_entry(alloc, format, id, body) {
            Ok(entry) => entry,
            Err(fault) => return Err(fault),
        };
        match self.version(&entry.row.model, 1) {
            Some(old) => again(alloc, old, id, body),
            None => self.judge_new(alloc, entry),
        }
    }

    /// What the limits say of version 1 of a model that isn't there.
    fn judge_new(&self, alloc: Global, entry: Entry) -> Result<Judged, CreateFault>
        requires book { IsBookOf self.now }
        requires fit { IsRowFit entry.row }
        ensures { IsJudgedNew (entries_in self.now) entry result }
    {
        if self.index.len() >= MOST_MODELS {
            return Err(CreateFault::ModelsFull);
        }
        match grown(alloc, self.size, &entry) {
            Ok(Some(size)) => Ok(Judged::Addition(entry, size)),
            Ok(None) => Err(CreateFault::TextFull),
            Err(_) => Err(CreateFault::Memory),
        }
    }

    /// What the checks of an edit come to, whose body is of this format.
    pub fn judge_edit(
        &self,
        alloc: Global,
        format: u8,
        model: &Name,
        base: u32,
        id: &Name,
        body: &[u8],
    ) -> Result<Judged, EditRefusal>
        requires book { IsBookOf self.now }
        requires id { IsRequestId id.now }
        ensures { IsEditJudged (entries_in self.now) format
            (record { model = model.now; base = base; id = id.now; body = body.now }) result }
    {
        let last = self.last_version(model);
        if last == 0 {
            return Err(EditRefusal::UnknownModel);
        }
        match self.with_id(alloc, model, id) {
            Ok(Some(old)) => return earlier(alloc, old, base, body),
            Ok(None) => {}
            Err(_) => return Err(EditRefusal::Memory),
        }
        if base != last {
            return Err(EditRefusal::Stale(last));
        }
        self.judge_change(alloc, format, model, base, id, body)
    }

    /// What the checks of an edit on the last version come to, once its body is read.
    fn judge_change(
        &self,
        alloc: Global,
        format: u8,
        model: &Name,
        last: u32,
        id: &Name,
        body: &[u8],
    ) -> Result<Judged, EditRefusal>
        requires book { IsBookOf self.now }
        requires id { IsRequestId id.now }
        requires there { last ≢ 0 }
        requires last { last ≡ last_version model.now (entries_in self.now) }
        ensures { IsLateJudged (entries_in self.now) format
            (record { model = model.now; base = last; id = id.now; body = body.now }) result }
    {
        let old = match self.version(model, last) {
            Some(old) => old,
            None => return Err(EditRefusal::UnknownModel),
        };
        let changed = match changed(alloc, &old.model, body) {
            Ok(changed) => changed,
            Err(refusal) => return Err(refusal),
        };
        match next_row(alloc, format, model, last, id, body) {
            Ok(row) => self.judge_next(
                alloc,
                Entry {
                    row,
                    model: changed,
                },
            ),
            Err(_) => Err(EditRefusal::Memory),
        }
    }

    /// What the limits say of a version behind the last one.
    fn judge_next(&self, alloc: Global, entry: Entry) -> Result<Judged, EditRefusal>
        requires book { IsBookOf self.now }
        requires fit { IsRowFit entry.row }
        ensures { IsJudgedNext (entries_in self.now) entry result }
    {
        if entry.row.base >= MOST_VERSIONS {
            return Err(EditRefusal::VersionsFull);
        }
        match grown(alloc, self.size, &entry) {
            Ok(Some(size)) => Ok(Judged::Addition(entry, size)),
            Ok(None) => Err(EditRefusal::TextFull),
            Err(_) => Err(EditRefusal::Memory),
        }
    }
}
