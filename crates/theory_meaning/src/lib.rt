//! What is true of an economic model: fractions of any size, points, the plain trees of
//! expressions, claims and lines, their values and truth, right halves and right verdicts.
//!
//! The definitions stand in `specs/`, in plain data. Nothing of the product's code is used or
//! repeated here; the enums below have no fields, and the product shares them. `slow` is a program
//! that computes values and truth as they are defined, and no more than that.
#![tactic(auto)]

mod laws;
mod laws_answers;
mod laws_fractions;
pub mod slow;
mod words;

pub use laws::{
    a_slope_follows_the_rules, empty_lists_of_claims, ends_do_not_meet_the_assumptions,
    equivalence_is_agreement, implication_fails_only_from_true_to_false, missing_name_is_zero,
    nothing_is_met_over_zero, one_half_is_an_example, one_third_is_a_counterexample,
    power_is_a_product, quotients_are_fractions, truth_reads_symbols_alone,
};
pub use laws_answers::{
    one_verdict_is_right, right_halves_give_the_right_answer, right_halves_give_the_right_verdict,
};
pub use laws_fractions::{
    operations_respect_sameness, order_has_no_gaps, order_is_total, order_respects_sameness,
    sameness_is_an_equivalence,
};
pub use words::{Kind, ModelKind, Rel, Sign, Verdict};
