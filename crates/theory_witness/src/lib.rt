//! A value for one symbol, and the point of the listed names along the path of a hit.
//!
//! A contract sees a formula as its plain tree, a path as its plain steps (`step_of` of
//! `specs/Path.antt`), a point as names with fractions. `pick` gives the first value of a written
//! order at which a formula in one symbol is true; `point_of` goes from a path's last step to its
//! first and picks a value at each. Read `pick` first.
#![tactic(auto)]

mod candidates;
mod line;
mod picking;
mod pointing;
mod ratio;
mod restriction;
mod roots;
mod stepping;
mod trial;
mod values;
mod witness;

pub use picking::{Picked, pick};
pub use pointing::{Pointed, point_of};
