//! The simplification of formulas: the written form, with the same truth at every point.
//!
//! A contract sees a formula as its plain tree. `simplify` judges atoms by what is known of their
//! polynomials; `simplify_signed` splits them first, and judges by the signs of their symbols too.
#![tactic(auto)]

mod drafts;
mod facts;
mod finishing;
mod flattening;
mod gathering;
mod hashes;
mod judgement;
mod lent;
mod possible;
mod powers;
mod sameness;
mod sign_rules;
mod simplification;
mod splitting;
mod symbols;

pub use simplification::{simplify, simplify_signed};
