ghost use Rattle.std.specs.Prelude.{◌≡◌, ◌++◌, IfOk, codes};
ghost use Rattle.theory_session.specs.Printed.{line_end};
ghost use Rattle.theory_cli.specs.Ending.{IsWritten, no_command_line, no_memory_line};
ghost use Rattle.theory_cli.specs.Running.{Reports, text_refusal_text};

use crate::running::Stop;
use crate::status::Status;
use crate::text_refusal::{TextRefusal, add_text_refusal};
use std::alloc::Global;
use theory_edge::Sink;
use theory_points::{Bytes, NoMemory};

/// Writes the line of a stop to err, and says how the run ends.
pub fn report<E: Sink>(alloc: Global, file: &str, stop: Stop, err: &mut E) -> Status
    ensures { Reports file.now stop (E.told err.old) (E.told err.new) result }
{
    match stop {
        Stop::Refused(refusal) => match refused(alloc, file, refusal) {
            Ok(text) => write_line(text.as_slice(), Status::Refused, err),
            Err(_) => report_no_memory(err),
        },
        Stop::Unread => match unread(alloc, file) {
            Ok(text) => write_line(text.as_slice(), Status::Unread, err),
            Err(_) => report_no_memory(err),
        },
        Stop::Unwritten => Status::Unwritten,
        Stop::NoMemory => report_no_memory(err),
    }
}

/// Writes that the words are no command.
pub fn report_no_command<E: Sink>(err: &mut E) -> Status
    ensures { IsWritten Status.NoCommand no_command_line (E.told err.old) (E.told err.new)
        result }
{
    write_line(
        b"theory: these words are no command\n",
        Status::NoCommand,
        err,
    )
}

/// Writes that memory is wanting.
pub fn report_no_memory<E: Sink>(err: &mut E) -> Status
    ensures { IsWritten Status.NoMemory no_memory_line (E.told err.old) (E.told err.new) result }
{
    write_line(b"theory: no memory\n", Status::NoMemory, err)
}

fn write_line<E: Sink>(line: &[u8], meant: Status, err: &mut E) -> Status
    ensures { IsWritten meant line.now (E.told err.old) (E.told err.new) result }
{
    match err.write(line) {
        Ok(()) => meant,
        Err(_) => Status::Unwritten,
    }
}

fn refused(alloc: Global, file: &str, refusal: TextRefusal) -> Result<Bytes, NoMemory>
    ensures { IfOk result (λ text. text ≡
        file.now ++ text_refusal_text refusal ++ line_end) }
{
    let mut text = Bytes::from_slice(alloc, file.as_bytes())?;
    add_text_refusal(alloc, &mut text, refusal)?;
    text.extend(b"\n")?;
    Ok(text)
}

fn unread(alloc: Global, file: &str) -> Result<Bytes, NoMemory>
    ensures { IfOk result (λ text. text ≡
        codes "theory: cannot read " ++ file.now ++ line_end) }
{
    let mut text = Bytes::from_slice(alloc, b"theory: cannot read ")?;
    text.extend(file.as_bytes())?;
    text.extend(b"\n")?;
    Ok(text)
}
