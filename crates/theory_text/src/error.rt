ghost use Rattle.std.specs.Prelude.{◌≡◌};
ghost use Rattle.theory_grammar.specs.declared.text_kind.TextKind.TheVariants.{Memory};
ghost use Rattle.theory_text.specs.Message.{printed_kind};

use std::alloc::AllocFailed;
use std::error::Error;
use std::fmt;
use theory_grammar::TextKind;
use theory_points::NoMemory;

/// Why bytes aren't read, and where: the first fault of the text.
#[derive(Clone, Copy, Debug, PartialEq, Eq)]
pub struct TextError {
    pub kind: TextKind,
    /// The number of the line, from 1.
    pub line: u32,
    /// The byte in the line, from 1.
    pub column: u32,
}

impl fmt::Display for TextError {
    ghost use Rattle.std.specs.Prelude.{Some};
    ghost use Rattle.theory_text.specs.Message.{printed_kind};

    ghost output = { λ error. Some (printed_kind error.kind) };

    fn fmt<W: fmt::Write>(&self, f: &mut fmt::Formatter<W>) -> fmt::Result {
        f.write_str(kind_name(self.kind))
    }
}

impl Error for TextError {}

impl From<NoMemory> for TextError {
    ghost from_gives = { λ _ e. e.kind ≡ Memory };

    fn from(_: NoMemory) -> Self {
        TextError {
            kind: TextKind::Memory,
            line: 1,
            column: 1,
        }
    }
}

impl<T: Drop> From<AllocFailed<T>> for TextError {
    ghost from_gives = { λ _ e. e.kind ≡ Memory };

    fn from(_: AllocFailed<T>) -> Self {
        TextError::from(NoMemory)
    }
}

/// The name of a kind, as it is printed.
pub fn kind_name(kind: TextKind) -> &'static str
    ensures { result.now ≡ printed_kind kind }
{
    match kind {
        TextKind::TooLong => "TooLong",
        TextKind::NotUtf8 => "NotUtf8",
        TextKind::BadToken => "BadToken",
        TextKind::Unexpected => "Unexpected",
        TextKind::LiteralWide => "LiteralWide",
        TextKind::ZeroBelow => "ZeroBelow",
        TextKind::Exponent => "Exponent",
        TextKind::Deep => "Deep",
        TextKind::Memory => "Memory",
    }
}
