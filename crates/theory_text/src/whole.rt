ghost use Rattle.std.specs.Prelude.{◌≡◌, ◌≤◌, length};
ghost use Rattle.theory_text.specs.LineRead.{token_error, bytes_error, left_error, IsWhole, LeavesWithin};

use crate::error::TextError;
use theory_grammar::{LineFaultKind, TextKind, Unreadable};
use theory_line::ParseFault;
use theory_points::NoMemory;
use theory_tokens::{End, Scanned};

/// The tree of a line's tokens where they are the whole line, or its first fault.
pub fn whole_line<V: Drop>(
    number: u32,
    scanned: &Scanned<'_>,
    parsed: Result<V, ParseFault>,
) -> Result<V, TextError>
    requires within { LeavesWithin (length scanned.now.columns.items) parsed }
    ensures { IsWhole number scanned.now parsed result }
{
    match parsed {
        Ok(tree) => match scanned.end {
            End::Complete(_) => Ok(tree),
            End::Broken(why, column) => Err(unreadable(number, why, column)),
        },
        Err(ParseFault::At(kind, left)) => Err(fault_at(number, scanned, kind, left)),
        Err(ParseFault::Memory) => Err(TextError::from(NoMemory)),
    }
}

// The fault at the token from which on so many are left, or where the line ends.
fn fault_at(number: u32, scanned: &Scanned<'_>, kind: LineFaultKind, left: usize) -> TextError
    requires within { left ≤ length scanned.now.columns.items }
    ensures { result ≡ left_error number scanned.now kind left }
{
    if left == 0 {
        return match scanned.end {
            End::Complete(column) => unexpected(number, kind, column),
            End::Broken(why, column) => unreadable(number, why, column),
        };
    }
    let place = scanned.columns.len() - left;
    unexpected(number, kind, scanned.columns[place])
}

// The error at a token of the line of this number, or at its end.
fn unexpected(number: u32, kind: LineFaultKind, column: u32) -> TextError
    ensures { result ≡ token_error number kind column }
{
    TextError {
        kind: match kind {
            LineFaultKind::Unexpected => TextKind::Unexpected,
            LineFaultKind::ZeroBelow => TextKind::ZeroBelow,
            LineFaultKind::Exponent => TextKind::Exponent,
            LineFaultKind::Deep => TextKind::Deep,
        },
        line: number,
        column,
    }
}

// The error at bytes of the line of this number that can't be read.
fn unreadable(number: u32, why: Unreadable, column: u32) -> TextError
    ensures { result ≡ bytes_error number why column }
{
    TextError {
        kind: match why {
            Unreadable::BadToken => TextKind::BadToken,
            Unreadable::LiteralWide => TextKind::LiteralWide,
        },
        line: number,
        column,
    }
}
