ghost use Rattle.std.specs.Prelude.{map, string_bytes};
ghost use Rattle.theory_decision.specs.Engine.{engine};
ghost use Rattle.theory_cli.specs.Plain.{replies_of};
ghost use Rattle.theory_cli.specs.Run.{IsRun};

use crate::reply::{Outcome, Replies};
use crate::report::{report_no_command, report_no_memory};
use crate::running::run;
use std::alloc::Global;
use theory_edge::{Files, Sink};
use theory_search::Policies;
use theory_words::{WordsFault, read_words};

/// Runs the command that the words name, over files that it reads and two sinks that it writes to;
/// the policies are those by which symbols are eliminated.
pub fn theory<F: Files, O: Sink, E: Sink>(
    alloc: Global,
    words: &[String],
    policies: &Policies,
    files: &mut F,
    out: &mut O,
    err: &mut E,
) -> Outcome
    // Something was given to the run, of which all facts of its replies, ends and status are true.
    ensures run { IsRun engine (map string_bytes words.now)
        record { files = F.told files.old; out = O.told out.old; err = E.told err.old }
        record { files = F.told files.new; out = O.told out.new; err = E.told err.new }
        result.status (replies_of result.replies) }
{
    match read_words(alloc, words) {
        Ok(command) => run(alloc, command, policies, files, out, err),
        Err(WordsFault::NoCommand) => Outcome {
            status: report_no_command(err),
            replies: Replies::new(alloc),
        },
        Err(WordsFault::NoMemory) => Outcome {
            status: report_no_memory(err),
            replies: Replies::new(alloc),
        },
    }
}
