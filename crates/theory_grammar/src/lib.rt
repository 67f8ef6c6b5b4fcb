//! What a model text spells: tokens of a line, the grammar of lines, edits, the first fault,
//! printed forms.
//!
//! The definitions stand in `specs/`, in plain data. Nothing of the product's code is used or
//! repeated here; the enums below have no fields, and the product shares them.
#![tactic(auto)]

mod laws;
mod laws_printed;
mod laws_scan;
mod laws_text;
mod laws_worked;
mod text_kind;
mod unreadable;
mod words;

pub use laws::{
    literals_are_in_lowest_terms, tokens_spell_one_edit_or_fail_once,
    tokens_spell_one_line_or_fail_once,
};
pub use laws_printed::{
    printed_forms_of_few_open_signs_spell_the_same, printed_forms_spell_the_same,
    printed_forms_spell_the_same_at_any_depth,
};
pub use laws_scan::{each_line_is_read_in_one_way, tokens_are_fit};
pub use laws_text::{
    a_line_is_spelled_once_or_fails_once, a_text_is_spelled_once_or_fails_once,
    an_edit_text_is_spelled_once_or_fails_once,
};
pub use laws_worked::{
    misread_quotients_are_refused, quotients_are_printed_as_written, quotients_are_read_as_written,
};
pub use text_kind::TextKind;
pub use unreadable::Unreadable;
pub use words::{Keyword, LineFaultKind, Mark};
