ghost use Rattle.std.specs.Prelude.{◌≡◌, Ok, IfOk};
ghost use Rattle.theory_session.specs.Accepted.{IsNext};
ghost use Rattle.theory_session.specs.Lookup.{found, find_version, last_version, listed_in};
ghost use Rattle.theory_session.specs.Row.{IsRequestId, present_format};
ghost use Rattle.theory_session.specs.Step.{Creates, Edits, Tells, showing};
ghost use Rattle.theory_session.specs.Run.{created, edited, listed};
ghost use Rattle.theory_meaning.specs.Faults.{HasCause};
ghost use Rattle.theory_edge.specs.declared.opened.Opened.TheVariants.{Now};
ghost use Rattle.theory_edge.specs.Keepers.{IsKept};
ghost use Rattle.theory_edge.specs.Stops.{Goes, IsRestOf};
ghost use Rattle.theory_versions.specs.Beginning.{HasNoLate, Begins, keeper_after, outcome_of};
ghost use Rattle.theory_versions.specs.Book.{IsAddition, IsFound};
ghost use Rattle.theory_versions.specs.Entries.{entry_of, entries_of};
ghost use Rattle.theory_versions.specs.Judging.{IsFirstJudged, IsEditJudged};
ghost use Rattle.theory_versions.specs.Kept.{UsesKeeper, IsStopOf, AddsOr, added_after};
ghost use Rattle.theory_versions.specs.Ledger.{LedgerState, IsLedger, TellsRows};
ghost use Rattle.theory_versions.specs.Replies.{create_reply, edit_reply, show_reply, list_reply};

use crate::beginning::{BeginFault, Refused, book_of};
use crate::book::{Book, Missing};
use crate::created::{CreateFault, Created};
use crate::edited::{EditRefusal, Edited};
use crate::entry::Entry;
use crate::judged::{Judged, name_of, printed};
use crate::shown::{Listed, ShowFault, Shown};
use std::alloc::Global;
use std::marker::Model;
use theory_edge::{EndFault, Keeper};
use theory_points::{Name, NoMemory};

/// The format in which bodies are read.
const PRESENT_FORMAT: u8 = 2;

/// The versions of a desk in the order of their acceptance, and the keeper of their rows.
#[derive(Drop)]
pub struct Ledger<K: Keeper> {
    book: Book,
    keeper: K,
}

impl<K: Keeper> Model for Ledger<K> {
    ghost use Rattle.std.specs.Coded.{codes};
    ghost use Rattle.theory_syntax.specs.contracts.claim.Claim as claim_row;
    ghost use Rattle.theory_syntax.specs.contracts.expr.Expr as expr_row;
    ghost use Rattle.theory_versions.specs.Entries.{entries_of};
    ghost use Rattle.theory_versions.specs.Index.{places_of, requests_of};
    ghost use Rattle.theory_versions.specs.Ledger.{LedgerState, IsLedger};

    ghost Value = { LedgerState K };

    ghost coded = { Prim.hlevel (codes, claim_row.the_row.coded, expr_row.the_row.coded) };

    ghost view = { λ l. record { entries = l.book.entries.items; keeper = l.keeper } };

    ghost invariant = { λ l. IsLedger (entries_of l.book.entries.items)
        (places_of l.book.index.entries) (requests_of l.book.requests.entries) l.book.size
        (K.told l.keeper) };
}

impl<K: Keeper> Ledger<K> {
    /// The versions of the rows that the keeper holds, each taken as an accepted request.
    pub fn begin(alloc: Global, keeper: K) -> Result<Ledger<K>, Refused<K>>
        requires opened { (K.told keeper).opened ≡ Now }
        requires no_late { HasNoLate (K.told keeper).late }
        ensures begun { Begins (K.told keeper).rows
            (outcome_of (λ l. entries_of l.entries) result) }
        ensures same { IsKept (K.told keeper) (K.told (keeper_after (λ l. l.keeper) result)) }
        ensures rows { IfOk result (λ l. TellsRows (K.told l.keeper).rows (entries_of l.entries)) }
        ensures cause { HasCause BeginFault.KeeperFault (K.told keeper).faults
            (K.told (keeper_after (λ l. l.keeper) result)).faults
            (outcome_of (λ l. entries_of l.entries) result) }
        ensures stops { Goes (K.stops keeper) (K.stops (keeper_after (λ l. l.keeper) result))
            (IsRestOf (K.told keeper)) }
    {
        let mut keeper = keeper;
        let rows = match keeper.rows(alloc) {
            Ok(rows) => rows,
            Err(EndFault::Failed) => {
                return Err(Refused {
                    keeper,
                    fault: BeginFault::KeeperFault,
                });
            }
            Err(EndFault::NoMemory) => {
                return Err(Refused {
                    keeper,
                    fault: BeginFault::Memory,
                });
            }
        };
        match book_of(alloc, rows.as_slice()) {
            Ok(book) => Ok(Ledger { book, keeper }),
            Err(fault) => Err(Refused { keeper, fault }),
        }
    }

    /// Creates a model by the request of this id, once the keeper has its row.
    pub fn create(&mut self, alloc: Global, id: &Name, body: &[u8]) -> Result<Created, CreateFault>
        requires id { IsRequestId id.now }
        ensures step { Creates (entries_of self.old.entries)
            (record { id = id.now; body = body.now }) (create_reply result)
            (entries_of self.new.entries) }
        ensures keeper { UsesKeeper CreateFault.KeeperFault (entries_of self.old.entries)
            (entries_of self.new.entries) (K.told self.old.keeper) (K.told self.new.keeper)
            result }
        ensures rows { TellsRows (K.told self.new.keeper).rows (entries_of self.new.entries) }
        ensures stops { Goes (K.stops self.old.keeper) (K.stops self.new.keeper)
            (IsStopOf (K.told self.old.keeper) (entries_of self.old.entries)) }
    {
        self.at_rest();
        match self.judge_first(alloc, id, body) {
            Ok(Judged::Repetition(made)) => Ok(Created {
                model: made.model,
                version: made.version,
            }),
            Ok(Judged::Addition(entry, size)) => self.add_first(alloc, entry, size),
            Err(fault) => Err(fault),
        }
    }

    /// What the checks of a creation come to.
    fn judge_first(&self, alloc: Global, id: &Name, body: &[u8]) -> Result<Judged, CreateFault>
        requires id { IsRequestId id.now }
        ensures { IsFirstJudged (entries_of self.now.entries) present_format
            (record { id = id.now; body = body.now }) result }
    {
        self.book.judge_first(alloc, PRESENT_FORMAT, id, body)
    }

    /// Adds version 1 of a model, once the keeper has its row.
    fn add_first(&mut self, alloc: Global, entry: Entry, size: u64) -> Result<Created, CreateFault>
        requires next { IsNext (entries_of self.old.entries) (entry_of entry) }
        requires addition { IsAddition (entries_of self.old.entries) entry size }
        ensures answer { AddsOr created (entries_of self.old.entries) (entry_of entry)
            (create_reply result) (entries_of self.new.entries) }
        ensures keeper { UsesKeeper CreateFault.KeeperFault (entries_of self.old.entries)
            (entries_of self.new.entries) (K.told self.old.keeper) (K.told self.new.keeper)
            result }
        ensures rows { TellsRows (K.told self.new.keeper).rows (entries_of self.new.entries) }
        ensures stops { Goes (K.stops self.old.keeper) (K.stops self.new.keeper)
            (IsStopOf (K.told self.old.keeper) (entries_of self.old.entries)) }
    {
        self.at_rest();
        let made = match name_of(alloc, &entry) {
            Ok(made) => made,
            Err(_) => return Err(CreateFault::Memory),
        };
        match self.add(alloc, entry, size) {
            Ok(()) => Ok(Created {
                model: made.model,
                version: made.version,
            }),
            Err(EndFault::Failed) => Err(CreateFault::KeeperFault),
            Err(EndFault::NoMemory) => Err(CreateFault::Memory),
        }
    }

    /// Edits a model on top of its last version by the request of this id, once the keeper has
    /// its row.
    pub fn edit(
        &mut self,
        alloc: Global,
        model: &Name,
        base: u32,
        id: &Name,
        body: &[u8],
    ) -> Result<Edited, EditRefusal>
        requires id { IsRequestId id.now }
        ensures step { Edits (entries_of self.old.entries)
            (record { model = model.now; base = base; id = id.now; body = body.now })
            (edit_reply result) (entries_of self.new.entries) }
        ensures keeper { UsesKeeper EditRefusal.KeeperFault (entries_of self.old.entries)
            (entries_of self.new.entries) (K.told self.old.keeper) (K.told self.new.keeper)
            result }
        ensures rows { TellsRows (K.told self.new.keeper).rows (entries_of self.new.entries) }
        ensures stops { Goes (K.stops self.old.keeper) (K.stops self.new.keeper)
            (IsStopOf (K.told self.old.keeper) (entries_of self.old.entries)) }
    {
        self.at_rest();
        match self.judge_edit(alloc, model, base, id, body) {
            Ok(Judged::Repetition(made)) => Ok(Edited {
                model: made.model,
                version: made.version,
            }),
            Ok(Judged::Addition(entry, size)) => self.add_next(alloc, entry, size),
            Err(refusal) => Err(refusal),
        }
    }

    /// What the checks of an edit come to.
    fn judge_edit(
        &self,
        alloc: Global,
        model: &Name,
        base: u32,
        id: &Name,
        body: &[u8],
    ) -> Result<Judged, EditRefusal>
        requires id { IsRequestId id.now }
        ensures { IsEditJudged (entries_of self.now.entries) present_format
            (record { model = model.now; base = base; id = id.now; body = body.now }) result }
    {
        self.book
            .judge_edit(alloc, PRESENT_FORMAT, model, base, id, body)
    }

    /// Adds a version behind the last one of its model, once the keeper has its row.
    fn add_next(&mut self, alloc: Global, entry: Entry, size: u64) -> Result<Edited, EditRefusal>
        requires next { IsNext (entries_of self.old.entries) (entry_of entry) }
        requires addition { IsAddition (entries_of self.old.entries) entry size }
        ensures answer { AddsOr edited (entries_of self.old.entries) (entry_of entry)
            (edit_reply result) (entries_of self.new.entries) }
        ensures keeper { UsesKeeper EditRefusal.KeeperFault (entries_of self.old.entries)
            (entries_of self.new.entries) (K.told self.old.keeper) (K.told self.new.keeper)
            result }
        ensures rows { TellsRows (K.told self.new.keeper).rows (entries_of self.new.entries) }
        ensures stops { Goes (K.stops self.old.keeper) (K.stops self.new.keeper)
            (IsStopOf (K.told self.old.keeper) (entries_of self.old.entries)) }
    {
        self.at_rest();
        let made = match name_of(alloc, &entry) {
            Ok(made) => made,
            Err(_) => return Err(EditRefusal::Memory),
        };
        match self.add(alloc, entry, size) {
            Ok(()) => Ok(Edited {
                model: made.model,
                version: made.version,
            }),
            Err(EndFault::Failed) => Err(EditRefusal::KeeperFault),
            Err(EndFault::NoMemory) => Err(EditRefusal::Memory),
        }
    }

    /// Adds a version, once the keeper has its row; all memory is taken before.
    fn add(&mut self, alloc: Global, entry: Entry, size: u64) -> Result<(), EndFault>
        requires next { IsNext (entries_of self.old.entries) (entry_of entry) }
        requires addition { IsAddition (entries_of self.old.entries) entry size }
        ensures added { entries_of self.new.entries
            ≡ added_after (entries_of self.old.entries) entry result }
        ensures keeper { UsesKeeper EndFault.Failed (entries_of self.old.entries)
            (entries_of self.new.entries) (K.told self.old.keeper) (K.told self.new.keeper)
            result }
        ensures rows { TellsRows (K.told self.new.keeper).rows (entries_of self.new.entries) }
        ensures stops { Goes (K.stops self.old.keeper) (K.stops self.new.keeper)
            (IsStopOf (K.told self.old.keeper) (entries_of self.old.entries)) }
    {
        self.at_rest();
        let room = match self.book.take_room(alloc, &entry.row.model, &entry.row.id) {
            Ok(room) => room,
            Err(_) => return Err(EndFault::NoMemory),
        };
        match self.keeper.append(alloc, &entry.row) {
            Ok(()) => {}
            Err(EndFault::Failed) => return Err(EndFault::Failed),
            Err(EndFault::NoMemory) => return Err(EndFault::NoMemory),
        }
        self.book.add(room, entry, size);
        Ok(())
    }

    // Between calls a stop leaves the rows of the versions, or these with one that is accepted next.
    fn at_rest(&self)
        ensures rows { TellsRows (K.told self.now.keeper).rows (entries_of self.now.entries) }
        ensures stops { Goes (K.stops self.now.keeper) (K.stops self.now.keeper)
            (IsStopOf (K.told self.now.keeper) (entries_of self.now.entries)) }
    {
        let _ = &self.keeper;
    }

    /// The text of a version, the last where none is named.
    pub fn show(
        &self,
        alloc: Global,
        model: &Name,
        version: Option<u32>,
    ) -> Result<Shown, ShowFault>
        ensures { Tells (entries_of self.now.entries)
            (showing (find_version model.now version (entries_of self.now.entries)))
            (show_reply result) (entries_of self.now.entries) }
    {
        match self.find(model, version) {
            Ok(entry) => match shown(alloc, entry) {
                Ok(shown) => Ok(shown),
                Err(_) => Err(ShowFault::Memory),
            },
            Err(Missing::Model) => Err(ShowFault::UnknownModel),
            Err(Missing::Version(last)) => Err(ShowFault::UnknownVersion(last)),
        }
    }

    /// The version of this number, the last where none is named, or what is missing.
    pub(crate) fn find(&self, model: &Name, version: Option<u32>) -> Result<&Entry, Missing>
        ensures { IsFound (find_version model.now version (entries_of self.now.entries)) result }
    {
        self.book.find(model, version)
    }

    /// The models with their last versions, in the order of their creation.
    pub fn list(&self, alloc: Global) -> Result<Listed, NoMemory>
        ensures { Tells (entries_of self.now.entries)
            (listed (listed_in (entries_of self.now.entries))) (list_reply result)
            (entries_of self.now.entries) }
    {
        self.book.list(alloc)
    }

    /// The number of the last version of a model, 0 where there is no such model.
    pub fn last_version(&self, model: &Name) -> u32
        ensures { result ≡ last_version model.now (entries_of self.now.entries) }
    {
        self.book.last_version(model)
    }

    /// The keeper as it is.
    pub fn end(self) -> K
        ensures { result ≡ self.keeper }
    {
        self.keeper
    }
}

/// The printed text of a version.
fn shown(alloc: Global, entry: &Entry) -> Result<Shown, NoMemory>
    ensures { IfOk result (λ s. show_reply (Ok s) ≡ showing (found (entry_of entry.now))) }
{
    Ok(Shown {
        model: entry.row.model.copy(alloc)?,
        version: entry.row.version,
        text: printed(alloc, &entry.model)?,
    })
}
