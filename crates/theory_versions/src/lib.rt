//! The versions of models: an accepted request is a row, and leaves a version.
//!
//! Contracts see a desk as its versions and its keeper, which holds their rows. What a call does is
//! its `Step` of `theory_session`. Read `Desk::create` first.
#![tactic(auto)]

mod beginning;
mod book;
mod created;
mod creating;
mod desk;
mod edited;
mod editing;
mod entry;
mod ids;
mod judged;
mod judging;
mod ledger;
mod requests;
mod rooms;
mod shown;

pub use beginning::{BeginFault, Refused};
pub use created::{CreateFault, Created};
pub use desk::Desk;
pub use edited::{EditRefusal, Edited};
pub use entry::Entry;
pub use ids::is_request_id;
pub use ledger::Ledger;
pub use shown::{Last, Listed, ShowFault, Shown};
