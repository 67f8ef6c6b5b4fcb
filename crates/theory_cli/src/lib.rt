//! The top call of the program, over ends that are handed in.
//!
//! `theory` reads the words as a command and the file that it names, replies to each claim of its
//! text or differentiates its equations, and writes the replies, or says why the text or its model
//! is refused. Its one clause says that something was given to the run, and of it which replies
//! those are, what is read and written, and what is the cause of each status; its facts are listed
//! in `specs/Run.antt`. `program` is the same with an exit status. Read `theory` first.
#![tactic(auto)]

mod answer;
mod causes;
mod cli;
mod derived;
mod entry;
mod names;
mod parsing;
mod printing;
mod refused;
mod reply;
mod report;
mod running;
mod session;
mod status;
mod text_refusal;

pub use cli::theory;
pub use entry::{NoWords, program};
pub use printing::print;
pub use reply::{AskFault, Created, Outcome, Refusal, Replies, Reply};
pub use status::Status;
