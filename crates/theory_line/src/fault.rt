use std::error::Error;
use std::fmt;
use theory_grammar::LineFaultKind;
use theory_points::NoMemory;

/// Why tokens spell nothing.
#[derive(Clone, Copy, Debug, PartialEq, Eq)]
pub enum ParseFault {
    /// The kind, and how many tokens are left from the one at fault on; 0 at the end of the line.
    At(LineFaultKind, usize),
    /// Want of memory.
    Memory,
}

impl fmt::Display for ParseFault {
    ghost use Rattle.std.specs.Prelude.{Some};
    ghost use Rattle.theory_line.specs.Message.{message_of};

    ghost output = { λ fault. Some (message_of fault) };

    fn fmt<W: fmt::Write>(&self, f: &mut fmt::Formatter<W>) -> fmt::Result {
        f.write_str(match self {
            ParseFault::At(LineFaultKind::Unexpected, _) => "a token at which no line goes on",
            ParseFault::At(LineFaultKind::ZeroBelow, _) => "a fraction over 0",
            ParseFault::At(LineFaultKind::Exponent, _) => "an exponent that isn't from 1 to 8",
            ParseFault::At(LineFaultKind::Deep, _) => "more than 32 open signs",
            ParseFault::Memory => "no memory",
        })
    }
}

impl Error for ParseFault {}

impl From<NoMemory> for ParseFault {
    ghost use Rattle.std.specs.Prelude.{◌≡◌};
    ghost use Rattle.theory_line.specs.declared.fault.ParseFault.TheVariants as judged;

    ghost from_gives = { λ _ e. e ≡ judged.Memory };

    fn from(_: NoMemory) -> Self {
        ParseFault::Memory
    }
}
