ghost use Rattle.std.specs.Prelude.{◌≡◌, ℕ, List, Option, option_map, IfOk, string_bytes};
ghost use Rattle.theory_meaning.specs.Faults.{HasCause};
ghost use Rattle.theory_edge.specs.declared.opened.Opened.TheVariants.{Now};
ghost use Rattle.theory_edge.specs.Keepers.{KeeperTold, IsOpening, AreRows, IsKept, IsAppend};
ghost use Rattle.theory_edge.specs.Rows.{IsRowFit};
ghost use Rattle.theory_edge.specs.Stops.{Stops, Goes, LeftNow, IsRestOf, IsCutAppend, Rests};

use crate::files::EndFault;
use crate::row::{Row, Rows};
use std::alloc::Global;
use std::marker::Model;

/// What keeps rows, one append at a time.
pub trait Keeper {
    /// The rows, whether they are opened, what was asked for, and how often a call failed.
    ghost told: { Self → KeeperTold };

    /// The clock, and what a stop of the machine may leave.
    ghost stops: { Self → Stops };

    /// Opens what is kept at the place, or where none is named.
    fn open(&mut self, alloc: Global, place: Option<String>) -> Result<(), EndFault>
        ensures opening { IsOpening (option_map string_bytes place) (told self.old)
            (told self.new) result }
        // What a stop leaves since the start, it could have left at that start.
        ensures stops { Goes (stops self.old) (stops self.new) (LeftNow (stops self.old)) };

    /// All the rows in their order.
    fn rows(&mut self, alloc: Global) -> Result<Rows, EndFault>
        requires opened { (told self.old).opened ≡ Now }
        ensures rows { IfOk result (λ rows. AreRows (told self.old).rows rows) }
        ensures same { IsKept (told self.old) (told self.new) }
        ensures cause { HasCause EndFault.Failed (told self.old).faults (told self.new).faults
            result }
        ensures stops { Goes (stops self.old) (stops self.new) (IsRestOf (told self.old)) };

    /// Keeps a row behind the others.
    fn append(&mut self, alloc: Global, row: &Row) -> Result<(), EndFault>
        requires opened { (told self.old).opened ≡ Now }
        requires fit { IsRowFit row.now }
        ensures append { IsAppend row.now (told self.old) (told self.new) result }
        ensures stops { Goes (stops self.old) (stops self.new)
            (IsCutAppend (told self.old) row.now) };

    /// How often a call has failed; it stands still at 2^64 - 1.
    fn faults(&self) -> u64
        ensures { result ≡ (told self.now).faults };

    /// What a stop between two calls leaves.
    ghost rests: { (keeper : Self) → Rests (told keeper) (stops keeper) };
}

/// The place of the last opening, and the count of faults when it began.
#[derive(Debug, Drop)]
pub(crate) struct PlaceAsked {
    place: Option<String>,
    faults: u64,
}

impl Model for PlaceAsked {
    ghost Value = { Option (List ℕ) × ℕ };

    ghost view = { λ a. (option_map string_bytes a.place, a.faults) };
}

impl PlaceAsked {
    pub(crate) fn new(place: Option<String>, faults: u64) -> Self
        ensures { result ≡ (option_map string_bytes place, faults) }
    {
        PlaceAsked { place, faults }
    }
}
