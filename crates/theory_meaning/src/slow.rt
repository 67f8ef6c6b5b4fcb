//! A plain and slow program that computes values and truth as defined, on trees of its own.
//!
//! Each call answers what the definition gives, or None where a part of a fraction doesn't fit.
//! Nothing is brought to lowest terms, and the product shares no step with it. Read `truth` first.

mod fractions;
mod truths;
mod values;

pub use fractions::Number;
pub use truths::{Claim, truth};
pub use values::{Entry, Expr, value};
