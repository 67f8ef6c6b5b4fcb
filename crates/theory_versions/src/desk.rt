ghost use Rattle.std.specs.Prelude.{◌≡◌, None, Some, IfOk};
ghost use Rattle.theory_meaning.specs.Faults.{HasCause};
ghost use Rattle.theory_session.specs.Lookup.{last_version};
ghost use Rattle.theory_session.specs.Row.{IsRequestId};
ghost use Rattle.theory_session.specs.Step as session;
ghost use Rattle.theory_session.specs.Step.{Step};
ghost use Rattle.theory_edge.specs.declared.opened.Opened.TheVariants.{Now};
ghost use Rattle.theory_edge.specs.Keepers.{IsKept};
ghost use Rattle.theory_edge.specs.Stops.{Goes, IsRestOf};
ghost use Rattle.theory_versions.specs.Beginning.{HasNoLate, Begins, keeper_after, outcome_of};
ghost use Rattle.theory_versions.specs.Entries.{entries_of};
ghost use Rattle.theory_versions.specs.Kept.{UsesKeeper, IsStopOf};
ghost use Rattle.theory_versions.specs.Ledger.{TellsRows};
ghost use Rattle.theory_versions.specs.Replies.{create_reply, edit_reply, show_reply, list_reply, where_above_0};

use crate::beginning::{BeginFault, Refused};
use crate::created::{CreateFault, Created};
use crate::edited::{EditRefusal, Edited};
use crate::ledger::Ledger;
use crate::shown::{Listed, ShowFault, Shown};
use std::alloc::Global;
use theory_edge::Keeper;
use theory_points::{Name, NoMemory};
use theory_verdict::Decider;

/// The versions of models, the keeper of their rows, and a decider of their claims.
#[derive(Drop)]
pub struct Desk<D: Decider, K: Keeper> {
    decider: D,
    ledger: Ledger<K>,
}

impl<D: Decider + Drop, K: Keeper> Desk<D, K> {
    /// The desk of the rows that the keeper holds, each taken as an accepted request.
    ///
    /// Refused, it hands the keeper back as it was, and drops the decider.
    pub fn begin(alloc: Global, decider: D, keeper: K) -> Result<Desk<D, K>, Refused<K>>
        requires opened { (K.told keeper).opened ≡ Now }
        requires no_late { HasNoLate (K.told keeper).late }
        ensures begun { Begins (K.told keeper).rows
            (outcome_of (λ d. entries_of d.ledger.entries) result) }
        ensures decider { IfOk result (λ d. d.decider ≡ decider) }
        ensures same { IsKept (K.told keeper)
            (K.told (keeper_after (λ d. d.ledger.keeper) result)) }
        ensures rows { IfOk result (λ d.
            TellsRows (K.told d.ledger.keeper).rows (entries_of d.ledger.entries)) }
        ensures cause { HasCause BeginFault.KeeperFault (K.told keeper).faults
            (K.told (keeper_after (λ d. d.ledger.keeper) result)).faults
            (outcome_of (λ d. entries_of d.ledger.entries) result) }
        ensures stops { Goes (K.stops keeper)
            (K.stops (keeper_after (λ d. d.ledger.keeper) result)) (IsRestOf (K.told keeper)) }
    {
        match Ledger::begin(alloc, keeper) {
            Ok(ledger) => Ok(Desk { decider, ledger }),
            Err(refused) => Err(refused),
        }
    }

    /// The keeper as it is; the decider is dropped.
    pub fn end(self) -> K
        ensures { result ≡ self.ledger.keeper }
    {
        self.ledger.end()
    }
}

impl<D: Decider, K: Keeper> Desk<D, K> {
    /// Creates a model by the request of this id, once the keeper has its row.
    pub fn create(&mut self, alloc: Global, id: &Name, body: &[u8]) -> Result<Created, CreateFault>
        requires id { IsRequestId id.now }
        ensures step { Step D.meanings (entries_of self.old.ledger.entries)
            (session.create (record { id = id.now; body = body.now })) (create_reply result)
            (entries_of self.new.ledger.entries) }
        ensures same { self.new.decider ≡ self.old.decider }
        ensures keeper { UsesKeeper CreateFault.KeeperFault
            (entries_of self.old.ledger.entries) (entries_of self.new.ledger.entries)
            (K.told self.old.ledger.keeper) (K.told self.new.ledger.keeper) result }
        ensures rows { TellsRows (K.told self.new.ledger.keeper).rows
            (entries_of self.new.ledger.entries) }
        ensures stops { Goes (K.stops self.old.ledger.keeper) (K.stops self.new.ledger.keeper)
            (IsStopOf (K.told self.old.ledger.keeper)
            (entries_of self.old.ledger.entries)) }
    {
        self.ledger.create(alloc, id, body)
    }

    /// Edits a model on top of its last version by the request of this id, once the keeper has
    /// its row.
    pub fn edit(
        &mut self,
        alloc: Global,
        model: &Name,
        base: u32,
        id: &Name,
        body: &[u8],
    ) -> Result<Edited, EditRefusal>
        requires id { IsRequestId id.now }
        ensures step { Step D.meanings (entries_of self.old.ledger.entries)
            (session.edit (record {
              model = model.now;
              base = base;
              id = id.now;
              body = body.now;
            })) (edit_reply result)
            (entries_of self.new.ledger.entries) }
        ensures same { self.new.decider ≡ self.old.decider }
        ensures keeper { UsesKeeper EditRefusal.KeeperFault
            (entries_of self.old.ledger.entries) (entries_of self.new.ledger.entries)
            (K.told self.old.ledger.keeper) (K.told self.new.ledger.keeper) result }
        ensures rows { TellsRows (K.told self.new.ledger.keeper).rows
            (entries_of self.new.ledger.entries) }
        ensures stops { Goes (K.stops self.old.ledger.keeper) (K.stops self.new.ledger.keeper)
            (IsStopOf (K.told self.old.ledger.keeper)
            (entries_of self.old.ledger.entries)) }
    {
        self.ledger.edit(alloc, model, base, id, body)
    }

    /// The text of a version, the last where none is named.
    pub fn show(
        &self,
        alloc: Global,
        model: &Name,
        version: Option<u32>,
    ) -> Result<Shown, ShowFault>
        ensures { Step D.meanings (entries_of self.now.ledger.entries)
            (session.show model.now version) (show_reply result)
            (entries_of self.now.ledger.entries) }
    {
        self.ledger.show(alloc, model, version)
    }

    /// The models with their last versions, in the order of their creation.
    pub fn list(&self, alloc: Global) -> Result<Listed, NoMemory>
        ensures { Step D.meanings (entries_of self.now.ledger.entries) session.list
            (list_reply result) (entries_of self.now.ledger.entries) }
    {
        self.ledger.list(alloc)
    }

    /// How often the decider was asked.
    pub fn runs(&self) -> u64
        ensures { result ≡ D.asked self.now.decider }
    {
        self.decider.runs()
    }

    /// The number of the last version of a model, where there is one.
    pub fn last_version(&self, model: &Name) -> Option<u32>
        ensures { result
            ≡ where_above_0 (last_version model.now (entries_of self.now.ledger.entries)) }
    {
        match self.ledger.last_version(model) {
            0 => None,
            last => Some(last),
        }
    }
}
