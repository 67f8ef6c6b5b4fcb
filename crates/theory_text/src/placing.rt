ghost use Rattle.std.specs.Prelude.{◌≡◌, ◌+◌, ◌≤◌, length, take};
ghost use Rattle.theory_grammar.specs.OneLine.{in_line_1};
ghost use Rattle.theory_grammar.specs.TextFault.{fault_behind};
ghost use Rattle.theory_text.specs.Answers.{fault_of};
ghost use Rattle.theory_text.specs.Checked.{IsSized, IsTextOr};

use crate::error::TextError;
use theory_grammar::TextKind;

/// The greatest number of bytes of a text.
const LONGEST_TEXT: usize = 65_536;

/// Why bytes are no text.
#[derive(Clone, Copy, Debug)]
pub enum NoText {
    /// They are too many.
    TooLong,
    /// The bytes behind so many are no UTF-8.
    NotUtf8(usize),
}

/// The size and the encoding of a text, which are judged before any line is read.
pub fn check_text(bytes: &[u8]) -> Result<(), TextError>
    ensures { IsTextOr (λ k n. fault_behind k (take n bytes.now)) bytes.now result }
{
    match check_bytes(bytes) {
        Ok(()) => Ok(()),
        Err(NoText::TooLong) => Err(error_behind(TextKind::TooLong, bytes, LONGEST_TEXT)),
        Err(NoText::NotUtf8(n)) => Err(error_behind(TextKind::NotUtf8, bytes, n)),
    }
}

/// The size and the encoding of bytes that are one line, whatever line feeds stand among them.
pub fn check_line(bytes: &[u8]) -> Result<(), TextError>
    ensures { IsTextOr (λ k n. in_line_1 k (n + 1)) bytes.now result }
{
    match check_bytes(bytes) {
        Ok(()) => Ok(()),
        Err(NoText::TooLong) => Err(error_in_line_1(TextKind::TooLong, LONGEST_TEXT)),
        Err(NoText::NotUtf8(n)) => Err(error_in_line_1(TextKind::NotUtf8, n)),
    }
}

// Whether the bytes are a text, by their number first and then by their encoding.
fn check_bytes(bytes: &[u8]) -> Result<(), NoText>
    ensures { IsSized bytes.now result }
{
    if bytes.len() > LONGEST_TEXT {
        return Err(NoText::TooLong);
    }
    match std::str::from_utf8(bytes) {
        Ok(_) => Ok(()),
        Err(fault) => Err(NoText::NotUtf8(fault.valid_up_to())),
    }
}

/// The error behind so many bytes of one line.
pub fn error_in_line_1(kind: TextKind, before: usize) -> TextError
    requires { before ≤ 65536 }
    ensures { fault_of result ≡ in_line_1 kind (before + 1) }
{
    TextError {
        kind,
        line: 1,
        column: (before + 1) as u32,
    }
}

// The error at the byte behind so many.
fn error_behind(kind: TextKind, bytes: &[u8], before: usize) -> TextError
    requires within { before ≤ length bytes.now }
    requires few { before ≤ 65536 }
    ensures { fault_of result ≡ fault_behind kind (take before bytes.now) }
{
    let mut line = 1;
    let mut column = 1;
    for byte in &bytes[..before] {
        if *byte == b'\n' {
            line += 1;
            column = 1;
        } else {
            column += 1;
        }
    }
    TextError { kind, line, column }
}
