//! The tokens of one line, read as a line of a model or as an edit.
//!
//! `parse_line` and `parse_op` give the tree that the tokens spell by the grammar of
//! `theory_grammar`, or their first fault. Read `parse_line` first.
#![tactic(auto)]

mod claim_nodes;
mod claims;
mod comparisons;
mod edits;
mod exprs;
mod fault;
mod front;
mod lines;
mod literals;
mod names;
mod next;
mod nodes;
mod parts;

pub use edits::parse_op;
pub use fault::ParseFault;
pub use lines::parse_line;
