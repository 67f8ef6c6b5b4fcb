use std::error::Error;
use std::fmt;
use theory_meaning::Kind;

/// Why words aren't read as a command.
#[derive(Clone, Copy, Debug, PartialEq, Eq)]
pub enum WordsFault {
    /// The words are no command.
    NoCommand,
    /// Want of memory, which may come at any words.
    NoMemory,
}

impl fmt::Display for WordsFault {
    ghost use Rattle.std.specs.Prelude.{Some};
    ghost use Rattle.theory_words.specs.Message.{message_of};

    ghost output = { λ fault. Some (message_of fault) };

    fn fmt<W: fmt::Write>(&self, f: &mut fmt::Formatter<W>) -> fmt::Result {
        f.write_str(match self {
            WordsFault::NoCommand => "no command",
            WordsFault::NoMemory => "no memory",
        })
    }
}

impl Error for WordsFault {}

/// What the words ask for.
#[derive(Clone, Copy, Debug, PartialEq, Eq)]
pub enum Command<'a> {
    /// To answer each claim of the file; symbols are eliminated in the order. The names on which
    /// the condition is wanted stand in one text, with a comma between each two.
    Check {
        file: &'a str,
        order: Kind,
        on: Option<&'a str>,
    },
    /// To write what follows from the file.
    Derive {
        file: &'a str,
    },
}
