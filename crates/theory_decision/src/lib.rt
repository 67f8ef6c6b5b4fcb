//! What is written of deciding a formula: choice, search, leaves, witness, half and condition.
//!
//! The definitions stand in `specs/`: `Choice`, `Finding` and `Search` with its `Outcomes`,
//! `Regions`, `Candidates` and `Witness`, `Answers`, and `Engine`, what an engine may answer. What
//! they mean is said by `laws_choice`, `laws_search`, `laws_witness` and `laws_answers`.
#![tactic(auto)]

mod candidate;
mod laws_answers;
mod laws_choice;
mod laws_search;
mod laws_witness;
mod laws_worked;

pub use candidate::Candidate;
pub use laws_answers::{
    a_known_condition_holds_its_names, a_known_condition_is_right, a_written_half_is_right,
    an_engine_may_answer_a_written_half, an_engine_may_answer_a_written_region,
    written_answers_are_single,
};
pub use laws_choice::{a_choice_is_a_place, a_chosen_symbol_is_a_candidate};
pub use laws_search::{
    a_failure_makes_no_symbol, a_hit_has_a_point, a_leaf_reads_kept_symbols,
    a_search_finds_no_leaf, a_search_has_one_outcome, an_empty_search_has_no_point,
    each_search_has_an_outcome, leaves_are_the_condition, the_first_failure_counts,
};
pub use laws_witness::{
    a_hit_is_a_path, a_path_has_one_witness, a_pick_is_right, a_step_has_a_pick, a_witness_is_right,
};
pub use laws_worked::{
    limits_of_searches, worked_candidates, worked_choices, worked_leaves, worked_searches,
};
