//! What is written of the elimination: the simplified form of a formula, and its branches.
//!
//! The definitions stand in `specs/`: `Facts`, `Members`, `Judging` and `Simplified`, then
//! `TestPoint`, `Substituted`, `Branches` with their `Widths`, and `Elimination`. What they mean
//! is said by `laws_simplified`, `laws_branches` and `laws_written`.
#![tactic(auto)]

mod laws_branches;
mod laws_simplified;
mod laws_written;

pub use laws_branches::{
    a_true_branch_has_a_value, a_true_formula_has_a_branch,
    a_true_level_branch_makes_the_formula_true, branches_are_free, branches_are_single,
    branches_make_no_symbol, branches_of_formulas,
};
pub use laws_simplified::{
    simplification_keeps_truth, simplification_makes_no_polynomial, simplified_forms,
};
pub use laws_written::each_branch_is_written;
