//! Formulas of sign conditions on polynomials.
//!
//! The definitions stand in `specs/`: `Signs` and `Formula`, then `SignCondition` and `Symbols`.
//! `laws` says what they mean.
#![tactic(auto)]

mod laws;
mod signs;

pub use laws::{
    a_set_is_known_by_its_signs, conditions_are_single, conditions_have_the_truth_of_the_sign,
    each_fraction_has_one_sign, mirror_and_complement_have_their_signs, negation_turns_truth,
    parts_of_sets_have_their_signs, relations_are_signs_of_differences,
    true_atoms_keep_a_formula_true, truth_reads_the_symbols_that_occur,
};
pub use signs::Signs;
