//! Rows about orders of elimination, searches, forms by signs and halves: what a call of theirs
//! answers, by policies that are handed in. Read `calls::answer` first.
#![tactic(auto)]

pub mod calls;
mod choices;
mod halves;
mod kinds;
mod premises;
mod questions;
mod searches;
