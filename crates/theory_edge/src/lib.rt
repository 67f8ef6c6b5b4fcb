//! The ends of the outside: named files that are read, sinks that are written to, keepers of rows.
//!
//! Contracts see an end by what it tells: the text under each name, the bytes taken so far, the
//! rows that are kept, and how often it has failed. Code above is generic over `Files`, `Sink` and
//! `Keeper`. A program hands in the ends of src/real.rt, the only file that reaches the outside.
//! Tests and worked runs hand in those in memory, whose faults are planned, or those that never
//! fail. Read `Files::read` first.
#![tactic(auto)]

mod files;
mod keeper;
mod mem_keeper;
mod memory;
mod opened;
mod real;
mod row;
mod sink;
mod sure;

pub use files::{EndFault, Files};
pub use keeper::Keeper;
pub use mem_keeper::MemKeeper;
pub use memory::{Calls, MemFiles, MemSink, MemText, MemTexts};
pub use opened::Opened;
pub use real::{RealFiles, RealSink};
pub use row::{Row, Rows};
pub use sink::{Failed, Sink};
pub use sure::{SureFiles, SureKeeper, SureSink};
