//! Expressions, claims, lines and sentences of a model.
//!
//! Contracts see each value as the plain tree that it stands for: `expr_of`, `claim_of`,
//! `claims_of`, `line_of`, `lines_of` and `ops_of` of `specs/Plain.antt`, in the trees of
//! `theory_meaning`.
#![tactic(auto)]

mod claim;
mod copying;
mod dividing;
mod expr;
mod line;
mod meeting;
mod text;
mod truth;

pub use claim::{Claim, Claims, Sentence};
pub use expr::Expr;
pub use line::Line;
pub use meeting::meets_at;
pub use text::{Lines, Numbered, Op, Ops};
pub use theory_meaning::Rel;
pub use truth::truth_at;
