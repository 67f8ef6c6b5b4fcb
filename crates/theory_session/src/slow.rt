//! A plain and slow desk: its versions stand in one list, and every look-up goes over all of it.
//!
//! Each call makes one step, as `Step` has it, for a list whose texts are handed in by the trait
//! `Text`. There is no index and no keeper: whether a keeper would take the row is a word of the
//! caller. The product shares nothing with it. Read `create` first.

mod adding;
mod creating;
mod editing;
mod lookups;
mod memory;
mod replies;
mod sizes;
mod telling;
mod texts;
mod versions;

pub use adding::Change;
pub use creating::create;
pub use editing::edit;
pub use memory::NoMemory;
pub use replies::{CreateRefusal, EditRefusal, ModelVersion, Refusal, Reply, ShowRefusal};
pub use telling::{list, show};
pub use texts::{EditFault, ModelFault, Text, TextFault, Unchanged, Unread};
pub use versions::{CreateRequest, EditRequest, Row, Version};
