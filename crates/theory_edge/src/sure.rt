ghost use Rattle.std.specs.Prelude.{◌≡◌, ◌≢◌, None, Err, option_map, IfOk, IsOk, string_bytes};
ghost use Rattle.theory_edge.specs.Files.{IsRead};
ghost use Rattle.theory_edge.specs.Stops.{untold};
ghost use Rattle.theory_edge.specs.Sure.{sure_texts, sure_told, after_sure_read, sure_sink, sure_unopened, sure_keeper_told, after_sure_open, after_sure_append};

use crate::files::{Asked, EndFault, Files, front};
use crate::keeper::{Keeper, PlaceAsked};
use crate::opened::Opened;
use crate::row::{Row, Rows};
use crate::sink::{Failed, Sink};
use std::alloc::Global;
use std::marker::Model;
use theory_points::Bytes;

/// Files that have one text under every name, and never fail.
#[derive(Debug, Drop)]
pub struct SureFiles {
    text: Bytes,
    reads: u64,
    asking: Option<Asked>,
}

impl Model for SureFiles {
    ghost use Rattle.theory_edge.specs.Sure.{SureState};

    ghost Value = { SureState };

    ghost view = { λ f. record { text = f.text; reads = f.reads; asked = f.asking } };
}

impl SureFiles {
    pub fn new(text: Bytes) -> Self
        ensures { result ≡ record { text = text; reads = 0; asked = None } }
    {
        SureFiles {
            text,
            reads: 0,
            asking: None,
        }
    }
}

impl Files for SureFiles {
    ghost told = { sure_told };

    fn read(&mut self, alloc: Global, name: String, limit: usize) -> Result<Bytes, EndFault>
        ensures read { IfOk result (λ bytes.
            IsRead (sure_texts self.old) (string_bytes name) limit bytes) }
        ensures never_failed { result ≢ Err EndFault.Failed }
        ensures state { self.new ≡ after_sure_read self.old (string_bytes name) }
    {
        self.reads = self.reads.saturating_add(1);
        self.asking = Some(Asked::new(name, 0));
        Ok(front(alloc, self.text.as_slice(), limit)?)
    }

    fn faults(&self) -> u64 {
        0
    }
}

/// A sink that takes every piece, and doesn't tell what it took.
#[derive(Debug, Drop)]
pub struct SureSink;

impl SureSink {
    pub fn new() -> Self {
        SureSink
    }
}

impl Sink for SureSink {
    ghost told = { λ _. sure_sink };

    fn write(&mut self, piece: &[u8]) -> Result<(), Failed>
        ensures never_failed { IsOk result }
    {
        Ok(())
    }

    fn faults(&self) -> u64 {
        0
    }
}

/// A keeper in memory that never fails, and tells its rows.
#[derive(Debug, Drop)]
pub struct SureKeeper {
    held: Rows,
    appended: u64,
    opened: Opened,
    asking: Option<PlaceAsked>,
}

impl Model for SureKeeper {
    ghost use Rattle.theory_edge.specs.Sure.{SureKeeperState};

    ghost Value = { SureKeeperState };

    ghost view = { λ k. record {
      rows = k.held;
      appended = k.appended;
      opened = k.opened;
      asked = k.asking;
    } };
}

impl SureKeeper {
    pub fn new(alloc: Global) -> Self
        ensures { result ≡ sure_unopened }
    {
        SureKeeper {
            held: Rows::new(alloc),
            appended: 0,
            opened: Opened::Never,
            asking: None,
        }
    }
}

impl Keeper for SureKeeper {
    ghost told = { sure_keeper_told };

    ghost stops = { λ _. untold };

    fn open(&mut self, _alloc: Global, place: Option<String>) -> Result<(), EndFault>
        ensures ok { IsOk result }
        ensures state { self.new ≡ after_sure_open self.old (option_map string_bytes place) }
    {
        self.asking = Some(PlaceAsked::new(place, 0));
        self.opened = Opened::Now;
        Ok(())
    }

    fn rows(&mut self, alloc: Global) -> Result<Rows, EndFault>
        ensures rows { IfOk result (λ rows. rows ≡ self.old.rows) }
        ensures same { self.new ≡ self.old }
        ensures never_failed { result ≢ Err EndFault.Failed }
    {
        Ok(self.held.copy(alloc)?)
    }

    fn append(&mut self, alloc: Global, row: &Row) -> Result<(), EndFault>
        ensures state { self.new ≡ after_sure_append self.old row.now result }
        ensures never_failed { result ≢ Err EndFault.Failed }
    {
        self.held.push(row.copy(alloc)?)?;
        self.appended = self.appended.saturating_add(1);
        Ok(())
    }

    fn faults(&self) -> u64 {
        0
    }

    ghost rests = { λ _ _ _ _. tt };
}
