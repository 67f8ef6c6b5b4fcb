//! Rows about polynomials and formulas: what a call of theirs answers, and what their
//! fields stand for. Read `calls::answer` first.
#![tactic(auto)]

mod branching;
pub mod calls;
mod conditions;
pub mod fault;
pub mod formula_texts;
pub mod formulas;
mod grid;
pub mod pieces;
mod polynomials;
mod quotients;
pub mod telling;
