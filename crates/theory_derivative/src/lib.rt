//! What is written of slopes: derivatives, the lines of `derive`, and the sentences of a claim.
//!
//! The definitions stand in `specs/`: `Derivative`, `Differentiated`, `Sentence`. `laws` says what
//! they mean at every point, and `laws_worked` computes worked models.
#![tactic(auto)]

mod laws;
mod laws_worked;

pub use laws::{
    answers_of_sentences_are_right, derivatives_are_slopes, derivatives_keep_divisors,
    labels_of_claims_are_single, sentences_ask_for_examples_and_counterexamples,
    sentences_hold_listed_symbols,
};
pub use laws_worked::{worked_derivatives, worked_lines, worked_sentences};
