//! The words of the program, read as a command.
//!
//! The first word says which command it is, and `clap` reads the words behind it. A contract sees
//! words as their bytes, and says that they are the command, or no command: `specs/Commands.antt`.
//! Read `read_words` first; `laws` says of plain words what they are.
#![tactic(auto)]

mod arguments;
mod command;
mod laws;
mod reading;
mod worked;

pub use command::{Command, WordsFault};
pub use laws::{
    a_check_is_by_the_order_named, a_check_is_by_unit, a_check_is_on_the_names_given,
    a_check_may_have_both_options, a_derivation_is_of_the_file, names_stand_between_commas,
    other_words_are_a_command, refused_words_are_no_command, words_are_one_command,
};
pub use reading::read_words;
pub use theory_meaning::Kind;
pub use worked::{
    names_of_a_check, other_first_words, other_forms_of_a_check, refused_derivations,
    refused_files_of_a_check, refused_names_of_a_check, refused_orders_of_a_check,
};
