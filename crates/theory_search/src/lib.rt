//! The search for a point of a formula, by elimination of one symbol after another, and the
//! leaves of it over symbols to keep.
//!
//! A contract sees a formula as its plain tree, and an outcome as the plain one of
//! `specs/Outcomes.antt`. A `Policy` keeps a boxed choice beside the fact that it answers the
//! written one of its kind; `four_policies!` boxes those of `orders`. Read `search` first, then
//! `leaves`.
#![tactic(auto)]

mod atoms;
mod by_orders;
mod candidacy;
mod finding;
mod leaf_list;
pub mod orders;
mod outcome;
mod policies;
mod policy;
mod progress;
mod searching;
mod simplifying;
mod visit;

pub use by_orders::search_by;
pub use candidacy::{Candidates, candidates};
pub use outcome::{Failure, Leaves, Outcome, StuckAtom, StuckAtoms};
pub use policies::Policies;
pub use policy::{Choose, Policy};
pub use searching::{leaves, search};
pub use simplifying::simplified;
pub use theory_decision::Candidate;
pub use theory_meaning::Kind;
pub use theory_signs::{Path, PathStep};
