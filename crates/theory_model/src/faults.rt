ghost use Rattle.std.specs.Prelude.{◌≡◌};
ghost use Rattle.theory_model.specs.Message.{printed_kind};

use std::error::Error;
use std::fmt;
use theory_meaning::ModelKind;

/// Why a list of lines is no model.
#[derive(Clone, Copy, Debug, PartialEq, Eq)]
pub struct ModelFault {
    pub kind: ModelKind,
    /// The number of the first line with a fault of this kind; 1 where there is no line.
    pub at: u32,
}

impl fmt::Display for ModelFault {
    ghost use Rattle.std.specs.Prelude.{Some};
    ghost use Rattle.theory_model.specs.Message.{printed_kind};

    ghost output = { λ fault. Some (printed_kind fault.kind) };

    fn fmt<W: fmt::Write>(&self, f: &mut fmt::Formatter<W>) -> fmt::Result {
        f.write_str(kind_name(self.kind))
    }
}

impl Error for ModelFault {}

/// The name of a kind, as it is printed.
pub fn kind_name(kind: ModelKind) -> &'static str
    ensures { result.now ≡ printed_kind kind }
{
    match kind {
        ModelKind::ModelLine => "ModelLine",
        ModelKind::KeyTwice => "KeyTwice",
        ModelKind::UnknownName => "UnknownName",
        ModelKind::BadArgument => "BadArgument",
        ModelKind::NoShift => "NoShift",
        ModelKind::NotParam => "NotParam",
        ModelKind::TooManySymbols => "TooManySymbols",
        ModelKind::TooManyLines => "TooManyLines",
        ModelKind::Memory => "Memory",
    }
}
