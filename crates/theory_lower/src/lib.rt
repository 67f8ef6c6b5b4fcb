//! Claims lowered to formulas of sign conditions, and the claims that are written for formulas.
//!
//! A contract sees claims and expressions as `theory_syntax` does, and formulas as `theory_signs`
//! does. Each call keeps the truth at every point. Read `lower` first.
#![tactic(auto)]

mod claims;
mod conditions;
mod counting;
mod divisors;
mod fault;
mod forms;
mod functions;
mod listing;
mod lowering;
mod polynomials;
mod quotients;

pub use claims::claim_of;
pub use fault::LowerFault;
pub use listing::is_listed;
pub use lowering::lower;
pub use quotients::place;
