//! The tokens of a line.
//!
//! Contracts see a token as the plain token that it stands for (`plain_token` of
//! `specs/Plain.antt`), and a scanned line as a reading of its bytes (`specs/Scanned.antt`). Read
//! `scan_line` first.
#![tactic(auto)]

mod line;
mod next;
mod number;
mod run;
mod token;
mod word;

pub use line::{End, Scanned, scan_line};
pub use token::Token;
