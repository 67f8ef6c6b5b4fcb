//! Rows about numbers, ends, runs of the program, errors and the slow program of the definitions:
//! what a call of theirs answers. Read `calls::answer` first.
#![tactic(auto)]

pub mod calls;
mod ends;
pub mod escapes;
mod keepers;
mod messages;
mod numbers;
pub mod runs;
mod slow;
