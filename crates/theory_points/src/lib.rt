//! Names, exact fractions within a stated bound, and points.
//!
//! Contracts see a `Name` as its bytes, a `Frac` as a fraction of any size that is in lowest terms
//! and within the bound, and a `Point` as a list of names with fractions. Read `Frac::new` first.
#![tactic(auto)]

mod between;
mod bytes;
mod frac;
mod limit;
mod point;
mod whole;

pub use between::simplest_between;
pub use bytes::{Bytes, Name, Names};
pub use frac::Frac;
pub use limit::{Limit, NoMemory, Wide};
pub use point::Point;
pub use theory_meaning::Sign;
pub use whole::{whole_above, whole_below};
