//! The engine: it decides sentences by the written search, the written witness and the leaves.
//!
//! `Engine` borrows the policies of the four orders and is a `Decider`: its half is exactly the
//! written one of the order that is asked for, and so is its condition on chosen names. Read
//! `Engine` first.
#![tactic(auto)]

mod causes;
mod engine;
mod halves;
mod regions;

pub use engine::Engine;
pub use halves::written_half;
pub use regions::written_region;
