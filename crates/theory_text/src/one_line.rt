ghost use Rattle.std.specs.Prelude.{◌≡◌};
ghost use Rattle.theory_grammar.specs.Spelled.{IsLine, IsOp};
ghost use Rattle.theory_syntax.specs.Plain.{line_of, op_of};
ghost use Rattle.theory_text.specs.LineRead.{IsLineRead, IsScanOrLong, has_nothing};

use crate::error::TextError;
use crate::whole::whole_line;
use std::alloc::Global;
use theory_grammar::TextKind;
use theory_line::{parse_line, parse_op};
use theory_syntax::{Line, Op};
use theory_tokens::{End, Scanned, scan_line};

/// The greatest number of bytes of a line.
const LONGEST_LINE: usize = 1_024;

/// The line of a model that these bytes are, or None where they have no token.
pub fn one_line(alloc: Global, number: u32, bytes: &[u8]) -> Result<Option<Line>, TextError>
    ensures { IsLineRead IsLine line_of number bytes.now result }
{
    let scanned = scan_short(alloc, number, bytes)?;
    if has_nothing(&scanned) {
        return Ok(None);
    }
    let parsed = parse_line(alloc, scanned.tokens.as_slice());
    Ok(Some(whole_line(number, &scanned, parsed)?))
}

/// The edit that these bytes are, or None where they have no token.
pub fn one_op(alloc: Global, number: u32, bytes: &[u8]) -> Result<Option<Op>, TextError>
    ensures { IsLineRead IsOp op_of number bytes.now result }
{
    let scanned = scan_short(alloc, number, bytes)?;
    if has_nothing(&scanned) {
        return Ok(None);
    }
    let parsed = parse_op(alloc, scanned.tokens.as_slice());
    Ok(Some(whole_line(number, &scanned, parsed)?))
}

// The tokens of a line that isn't too long.
fn scan_short<'a>(alloc: Global, number: u32, bytes: &'a [u8]) -> Result<Scanned<'a>, TextError>
    ensures { IsScanOrLong number bytes.now result }
{
    if bytes.len() > LONGEST_LINE {
        return Err(TextError {
            kind: TextKind::TooLong,
            line: number,
            column: 1_025,
        });
    }
    Ok(scan_line(alloc, bytes)?)
}

// Whether the line has no token, and no bytes that can't be read.
fn has_nothing(scanned: &Scanned<'_>) -> bool
    ensures { result ≡ has_nothing scanned.now.tokens.items scanned.now.end }
{
    scanned.tokens.is_empty() && matches!(scanned.end, End::Complete(_))
}
