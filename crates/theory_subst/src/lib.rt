//! Elimination of one symbol by virtual substitution of test points.
//!
//! A contract sees a formula as its plain tree, and a test point as the plain one that it stands
//! for (`point_of` of `specs/Points.antt`). Read `branch` first.
#![tactic(auto)]

mod elimination;
mod ends;
mod line;
mod linearity;
mod others;
mod planning;
mod sameness;
mod slope;
mod substitution;
mod test_point;
mod top_equation;

pub use elimination::{branch, branch_at};
pub use linearity::is_linear;
pub use planning::{Plan, Plans, branch_plans};
pub use substitution::substitute;
pub use test_point::{TestPoint, TestPoints, test_points};
