//! Model texts, edit texts and single lines: read from bytes, and printed.
//!
//! `read_text` gives the numbered lines that bytes spell by the grammar of `theory_grammar`, or
//! their first fault with its line and column; `read_ops` and `read_line` do so for edits and for
//! one line. Read `read_text` first.
#![tactic(auto)]

mod cutting;
mod error;
mod one_line;
mod placing;
mod reading;
mod whole;

pub use error::{TextError, kind_name};
pub use reading::{read_line, read_ops, read_text};
pub use theory_grammar::TextKind;
pub use theory_print::{print_claim, print_expr, print_line};
