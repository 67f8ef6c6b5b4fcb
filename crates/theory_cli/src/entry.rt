ghost use Rattle.std.specs.Prelude.{map, string_bytes};
ghost use Rattle.theory_cli.specs.Program.{IsProgram, EndsProgram, RunsOrNot};

use crate::cli::theory;
use crate::report::{report_no_command, report_no_memory};
use crate::status::Status;
use std::alloc::Global;
use theory_edge::{Files, Sink};
use theory_points::NoMemory;
use theory_search::four_policies;

/// Why the system gives no words.
#[derive(Clone, Copy, Debug, PartialEq, Eq)]
pub enum NoWords {
    /// A word isn't text.
    NotText,
    /// Want of memory for the words.
    NoMemory,
}

/// The exit status of a program with these words, behind its own name.
pub fn program<F: Files, O: Sink, E: Sink>(
    alloc: Global,
    words: Result<Vec<String>, NoWords>,
    files: &mut F,
    out: &mut O,
    err: &mut E,
) -> u8
    ensures { IsProgram words
        record { files = F.told files.old; out = O.told out.old; err = E.told err.old }
        record { files = F.told files.new; out = O.told out.new; err = E.told err.new } result }
{
    ending(alloc, words, files, out, err).number()
}

fn ending<F: Files, O: Sink, E: Sink>(
    alloc: Global,
    words: Result<Vec<String>, NoWords>,
    files: &mut F,
    out: &mut O,
    err: &mut E,
) -> Status
    ensures { EndsProgram words
        record { files = F.told files.old; out = O.told out.old; err = E.told err.old }
        record { files = F.told files.new; out = O.told out.new; err = E.told err.new } result }
{
    match words {
        Ok(words) => match run_by_orders(alloc, &words, files, out, err) {
            Ok(status) => status,
            Err(_) => report_no_memory(err),
        },
        Err(NoWords::NotText) => report_no_command(err),
        Err(NoWords::NoMemory) => report_no_memory(err),
    }
}

// A run with the policies of the four orders; for want of memory for these nothing is done.
fn run_by_orders<F: Files, O: Sink, E: Sink>(
    alloc: Global,
    words: &[String],
    files: &mut F,
    out: &mut O,
    err: &mut E,
) -> Result<Status, NoMemory>
    ensures { RunsOrNot (map string_bytes words.now)
        record { files = F.told files.old; out = O.told out.old; err = E.told err.old }
        record { files = F.told files.new; out = O.told out.new; err = E.told err.new } result }
{
    let policies = four_policies!(alloc);
    Ok(theory(alloc, words, &policies, files, out, err).status)
}
