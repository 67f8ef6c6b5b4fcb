//! The printed forms of expressions, claims, lines and edits.
//!
//! A contract sees a value as its plain tree and says the exact bytes, by `specs/Printed.antt` of
//! `theory_grammar`: brackets stand only where the grammar needs them, and around a divisor that
//! begins with a digit. Read `print_line` first.
#![tactic(auto)]

mod claim;
mod expr;
mod line;
mod parts;

pub use claim::print_claim;
pub use expr::print_expr;
pub use line::{print_line, print_op};
