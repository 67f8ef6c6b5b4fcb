ghost use Rattle.std.specs.Prelude.{◌≡◌};
ghost use Rattle.theory_lower.specs.declared.fault.LowerFault.TheVariants.{Memory};

use std::error::Error;
use std::fmt;
use theory_points::NoMemory;

/// Why claims have no lowered formula.
#[derive(Clone, Copy, Debug, PartialEq, Eq)]
pub enum LowerFault {
    /// The normal form has more than 512 atoms, True and False among them.
    Large,
    /// The lowest form of some node passes a limit of polynomials.
    Wide,
    /// Want of memory.
    Memory,
}

impl fmt::Display for LowerFault {
    ghost use Rattle.std.specs.Prelude.{Some};
    ghost use Rattle.theory_lower.specs.Message.{message_of};

    ghost output = { λ fault. Some (message_of fault) };

    fn fmt<W: fmt::Write>(&self, f: &mut fmt::Formatter<W>) -> fmt::Result {
        f.write_str(match self {
            LowerFault::Large => "more than 512 atoms",
            LowerFault::Wide => "a polynomial passes a limit",
            LowerFault::Memory => "no memory",
        })
    }
}

impl Error for LowerFault {}

impl From<NoMemory> for LowerFault {
    ghost from_gives = { λ _ e. e ≡ Memory };

    fn from(_: NoMemory) -> Self {
        LowerFault::Memory
    }
}
