//! Comparative statics: total derivatives along a parameter, the differentiated equations of a
//! model, and the two sentences of a claim in a model with equations.
//!
//! Contracts see expressions and lines as the plain trees of `theory_meaning`; what is written
//! stands in `theory_derivative`. Read `total_derivative` first, then `sentences`.
#![tactic(auto)]

mod before;
mod declaring;
mod differentiating;
mod equation;
mod equations;
mod sentence;
mod writing;

pub use differentiating::total_derivative;
pub use equation::Differentiated;
pub use equations::differentiated;
pub use sentence::sentences;
