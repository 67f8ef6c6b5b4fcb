//! Claims lowered to formulas, and the claims that are written for formulas.
//!
//! The definitions stand in `specs/`: `NormalForm`, `RationalFunction`, `Lowered` with its limits,
//! and `WrittenClaim`. `laws` says what they mean.
#![tactic(auto)]

mod laws;

pub use laws::{
    forms_have_the_value, lowered_formulas_are_named, lowered_formulas_are_proper,
    lowered_formulas_are_single, lowered_formulas_keep_truth, written_claims_keep_truth,
};
