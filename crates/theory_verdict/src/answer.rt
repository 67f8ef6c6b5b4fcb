use crate::half::{Cause, Half};
use theory_meaning::Verdict;
use theory_points::{Name, Names};
use theory_syntax::Claim;

/// The condition on chosen names under which a claim holds.
#[derive(Drop)]
pub enum Region {
    /// Where this is true the claim holds, and nowhere else.
    Known(Claim),
    /// The method doesn't say.
    Unknown(Cause),
}

/// The answer to one question.
#[derive(Drop)]
pub struct Answer {
    pub model: Name,
    /// The version of the model that was asked about, from 1.
    pub version: u32,
    /// The label of the claim.
    pub claim: Name,
    /// The listed symbols of the claim, in the order in which a point is printed.
    pub symbols: Names,
    pub example: Half,
    pub counter: Half,
    pub verdict: Verdict,
    /// The condition on the names that were asked about, for a mixed verdict alone.
    pub region: Option<Region>,
}
