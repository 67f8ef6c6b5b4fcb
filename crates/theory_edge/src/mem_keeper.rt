ghost use Rattle.std.specs.Prelude.{◌≡◌, option_map, Err, IfOk, string_bytes};
ghost use Rattle.theory_meaning.specs.Faults.{HasCause};
ghost use Rattle.theory_edge.specs.MemKeepers.{unopened, mem_keeper_told, IsNextIn, IsPlanned, counted, after_open, after_append};
ghost use Rattle.theory_edge.specs.Stops.{untold};

use crate::files::EndFault;
use crate::keeper::{Keeper, PlaceAsked};
use crate::memory::Calls;
use crate::opened::Opened;
use crate::row::{Row, Rows};
use std::alloc::Global;
use std::marker::Model;

/// A keeper in memory, whose calls fail or want memory as planned; it tells its rows.
#[derive(Debug, Drop)]
pub struct MemKeeper {
    held: Rows,
    fails: Calls,
    wants: Calls,
    calls: u64,
    faults: u64,
    appended: u64,
    opened: Opened,
    asking: Option<PlaceAsked>,
}

impl Model for MemKeeper {
    ghost use Rattle.theory_edge.specs.MemKeepers.{MemKeeperState};

    ghost Value = { MemKeeperState };

    ghost view = { λ k. record {
      rows = k.held;
      fails = k.fails;
      wants = k.wants;
      calls = k.calls;
      faults = k.faults;
      appended = k.appended;
      opened = k.opened;
      asked = k.asking;
    } };
}

impl MemKeeper {
    /// The calls of `open`, `rows` and `append` that are to fail, and those that are to want
    /// memory, by their numbers from 1; one in both lists fails.
    pub fn new(rows: Rows, fails: Calls, wants: Calls) -> Self
        ensures { result ≡ unopened rows fails wants }
    {
        MemKeeper {
            held: rows,
            fails,
            wants,
            calls: 0,
            faults: 0,
            appended: 0,
            opened: Opened::Never,
            asking: None,
        }
    }

    /// Counts a call, and answers what its number is planned for.
    fn begin_call(&mut self) -> Result<(), EndFault>
        ensures planned { IsPlanned self.old result }
        ensures wanted { result ≡ Err EndFault.NoMemory → IsNextIn self.old.wants self.old }
        ensures state { self.new ≡ counted self.old result }
        ensures cause { HasCause EndFault.Failed self.old.faults self.new.faults result }
    {
        self.calls = self.calls.saturating_add(1);
        if self.fails.contains(self.calls) {
            self.faults = self.faults.saturating_add(1);
            return Err(EndFault::Failed);
        }
        if self.wants.contains(self.calls) {
            return Err(EndFault::NoMemory);
        }
        Ok(())
    }
}

impl Keeper for MemKeeper {
    ghost told = { mem_keeper_told };

    ghost stops = { λ _. untold };

    fn open(&mut self, _alloc: Global, place: Option<String>) -> Result<(), EndFault>
        ensures cause { HasCause EndFault.Failed self.old.faults self.new.faults result }

        ensures planned { IsPlanned self.old result }
        ensures wanted { result ≡ Err EndFault.NoMemory → IsNextIn self.old.wants self.old }
        ensures state { self.new ≡ after_open self.old (option_map string_bytes place) result }
    {
        self.asking = Some(PlaceAsked::new(place, self.faults));
        let answer = self.begin_call();
        self.opened = self.opened.after(&answer);
        answer
    }

    fn rows(&mut self, alloc: Global) -> Result<Rows, EndFault>
        ensures rows { IfOk result (λ rows. rows ≡ self.old.rows) }
        ensures cause { HasCause EndFault.Failed self.old.faults self.new.faults result }

        ensures planned { IsPlanned self.old result }
        ensures state { self.new ≡ counted self.old result }
    {
        self.begin_call()?;
        Ok(self.held.copy(alloc)?)
    }

    fn append(&mut self, alloc: Global, row: &Row) -> Result<(), EndFault>
        ensures cause { HasCause EndFault.Failed self.old.faults self.new.faults result }

        ensures planned { IsPlanned self.old result }
        ensures state { self.new ≡ after_append self.old row.now result }
    {
        self.begin_call()?;
        self.held.push(row.copy(alloc)?)?;
        self.appended = self.appended.saturating_add(1);
        Ok(())
    }

    fn faults(&self) -> u64 {
        self.faults
    }

    ghost rests = { λ _ _ _ _. tt };
}
