//! Checked models: lists of lines to which no kind of fault applies, their listed symbols, and
//! edits.
//!
//! Contracts see a `Model` as its numbered lines, in the plain trees of `theory_meaning`; that they
//! are checked is kept in the type. Read `check` first.
#![tactic(auto)]

mod changing;
mod checking;
mod faults;
mod identifiers;
mod judging;
mod keys;
mod listing;
mod model;
mod uses;

pub use changing::{EditFault, apply};
pub use checking::check;
pub use faults::{ModelFault, kind_name};
pub use identifiers::{have_identifiers, put_identifiers};
pub use listing::symbols;
pub use model::{Model, text_of};
pub use theory_meaning::ModelKind;
