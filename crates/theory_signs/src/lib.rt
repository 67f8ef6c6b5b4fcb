//! Sign conditions on polynomials, and formulas of them.
//!
//! A contract sees an `Atom` as its polynomial and its set of signs, and a `Formula` as the plain
//! tree that it stands for: `formula_of` of `specs/Plain.antt`. Each call keeps or turns the truth
//! at every point. Read `make_atom` first.
#![tactic(auto)]

mod atom;
mod copying;
mod formula;
mod making;
mod naming;
mod negation;
mod path;

pub use atom::Atom;
pub use formula::{Formula, Formulas};
pub use making::{constant_sign, decision, make_atom};
pub use naming::is_named;
pub use negation::negate;
pub use path::{Path, PathStep};
pub use theory_formula::Signs;
