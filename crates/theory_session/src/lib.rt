//! The desk as a machine, and what it answers: questions about claims of a model, their answers,
//! rows and versions, commands, replies, and how these are printed.
//!
//! The definitions stand in `specs/`, in plain data: `Ask` and `Answered` first; then `Row`,
//! `Lookup`, `Creation` and `Editing`, by which `Step`, `Steps` and `Accepted` say what a desk does
//! with a command, over a session and with stored rows; last `Check`, `Derive` and `Printed`.
//! Nothing of the product's code is used or repeated here. `laws` says what the names of a question
//! and the conditions on them mean, and `laws_desk` what holds of every session.
#![tactic(auto)]

mod laws;
mod laws_desk;
mod laws_rows;
mod laws_scripts;
pub mod slow;

pub use laws::{
    conditions_of_sentences_are_right, first_unlisted_names_are_found, names_are_each_once,
    nothing_is_printed_of_no_equation, worked_condition, worked_questions,
};
pub use laws_desk::{
    Meant, accepted_versions_stay_accepted, each_command_has_one_step, questions_add_nothing,
    repeats_get_their_reply, rows_determine_the_desk,
};
pub use laws_rows::{
    a_check_is_a_run, a_desk_is_full_at_its_limits, a_row_has_one_of_two_formats,
    no_row_comes_before_its_base,
};
pub use laws_scripts::{
    a_failed_edit_is_sent_again, a_version_is_shown_as_printed, an_edit_is_accepted_once,
    ids_are_used_once_in_a_model,
};
