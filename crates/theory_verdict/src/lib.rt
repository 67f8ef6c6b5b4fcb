//! Halves, verdicts, regions and answers, and what decides halves and regions.
//!
//! A question has two halves: is there an example, a point that meets the assumptions and the
//! claim, and is there a counterexample, one that meets the assumptions and not the claim.
//! A region is the condition on chosen names under which there is no counterexample. Contracts see
//! both as the plain ones of `theory_meaning` (`half_of` and `region_of` of `specs/Plain.antt`).
//! Read `verdict_of` first, then `Decider`.
#![tactic(auto)]

mod answer;
mod decider;
mod half;

pub use answer::{Answer, Region};
pub use decider::Decider;
pub use half::{Cause, Half, StuckOn, StuckOns, verdict_of};
pub use theory_meaning::{Kind, Verdict};
