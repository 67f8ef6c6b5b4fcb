ghost use Rattle.std.specs.Prelude.{◌≡◌, List, ℕ, []};
ghost use Rattle.theory_decision.specs.Engine.{engine};
ghost use Rattle.theory_words.specs.Commands.{IsCommand};
ghost use Rattle.theory_words.specs.Reading.{command_of};
ghost use Rattle.theory_cli.specs.Command as given;
ghost use Rattle.theory_cli.specs.Plain.{replies_of};
ghost use Rattle.theory_cli.specs.Run.{IsRun};
ghost use Rattle.theory_cli.specs.Running.{ReadsFile, IsCarriedOut};

use crate::parsing::parse;
use crate::reply::{Outcome, Replies};
use crate::report::report;
use crate::session::{Halt, reply_to};
use crate::status::{Status, ended_with};
use crate::text_refusal::TextRefusal;
use std::alloc::Global;
use theory_edge::{EndFault, Files, Sink};
use theory_model::Model;
use theory_search::Policies;
use theory_words::Command;

/// Why a run of a command stops before its end.
#[derive(Clone, Copy, Debug, PartialEq, Eq)]
pub enum Stop {
    /// The text or its model is refused.
    Refused(TextRefusal),
    /// The file can't be read.
    Unread,
    /// A write to out failed.
    Unwritten,
    /// Want of memory.
    NoMemory,
}

/// The greatest number of bytes of a text; a read gives one more.
const TEXT_LIMIT: usize = 65_536;

/// Carries a command out and reports how it stopped, if it did.
pub fn run<F: Files, O: Sink, E: Sink>(
    alloc: Global,
    command: Command<'_>,
    policies: &Policies,
    files: &mut F,
    out: &mut O,
    err: &mut E,
) -> Outcome
    ensures { (words : List (List ℕ)) → IsCommand words (command_of command.entry) →
        IsRun engine words
        record { files = F.told files.old; out = O.told out.old; err = E.told err.old }
        record { files = F.told files.new; out = O.told out.new; err = E.told err.new }
        result.status (replies_of result.replies) }
{
    let mut replies = Replies::new(alloc);
    match carry_out(alloc, command, policies, files, out, &mut replies) {
        Ok(()) => Outcome {
            status: ended_with(&replies),
            replies,
        },
        Err(stop) => Outcome {
            status: report(alloc, file_of(command), stop, err),
            replies,
        },
    }
}

fn carry_out<F: Files, O: Sink>(
    alloc: Global,
    command: Command<'_>,
    policies: &Policies,
    files: &mut F,
    out: &mut O,
    replies: &mut Replies,
) -> Result<(), Stop>
    requires { replies.old ≡ [] }
    ensures { IsCarriedOut engine (command_of command.entry) (F.told files.old) (F.told files.new)
        (replies_of replies.new) (O.told out.old) (O.told out.new) result }
{
    let model = match read_file(alloc, command, files) {
        Ok(model) => model,
        Err(stop) => return Err(stop),
    };
    match reply_to(alloc, command, &model, policies, out, replies) {
        Ok(()) => Ok(()),
        Err(Halt::Unwritten) => Err(Stop::Unwritten),
        Err(Halt::NoMemory) => Err(Stop::NoMemory),
    }
}

fn read_file<F: Files>(alloc: Global, command: Command<'_>, files: &mut F) -> Result<Model, Stop>
    ensures { ReadsFile (command_of command.entry) (F.told files.old) (F.told files.new) result }
{
    let name = match String::from_str(alloc, file_of(command)) {
        Ok(name) => name,
        Err(_) => return Err(Stop::NoMemory),
    };
    match files.read(alloc, name, TEXT_LIMIT) {
        Ok(bytes) => parse(alloc, bytes.as_slice()),
        Err(EndFault::Failed) => Err(Stop::Unread),
        Err(EndFault::NoMemory) => Err(Stop::NoMemory),
    }
}

/// The file that a command names.
fn file_of<'a>(command: Command<'a>) -> &'a str
    ensures { result.now ≡ given.file_of (command_of command.entry) }
{
    match command {
        Command::Check { file, .. } => file,
        Command::Derive { file } => file,
    }
}
