//! Polynomials over whole numbers within stated limits, and the same over a whole number.
//!
//! A contract sees a `Poly` as the list of its terms in the fixed order, and a `RatPoly` as such a
//! list over a positive number. A `Poly` carries its hash. Each result is the exact one; `Wide`
//! comes where that passes a limit. Read `Poly::add` first.
#![tactic(auto)]

mod canonical;
mod content;
mod hashing;
mod judging;
mod laws;
mod merging;
mod part;
mod poly;
mod product;
mod rat_poly;
mod restriction;
mod term;

pub use laws::equal_polynomials_are_the_same;
pub use poly::Poly;
pub use rat_poly::RatPoly;
pub use term::{Term, Terms};
