ghost use Rattle.std.specs.Prelude.{◌≡◌, ◌≤◌, OnOk, OnErr};
ghost use Rattle.theory_meaning.specs.Faults.{Rose, Took, TookPart};
ghost use Rattle.theory_edge.specs.Sinks.{SinkTold};

use std::error::Error;
use std::fmt;

/// A sink didn't take the whole piece; it is counted.
#[derive(Clone, Copy, Debug, PartialEq, Eq)]
pub struct Failed;

impl fmt::Display for Failed {
    ghost use Rattle.std.specs.Prelude.{Some, codes};

    ghost output = { λ _. Some (codes "a write failed") };

    fn fmt<W: fmt::Write>(&self, f: &mut fmt::Formatter<W>) -> fmt::Result {
        f.write_str("a write failed")
    }
}

impl Error for Failed {}

/// What takes bytes, one piece a call, such as a stream or memory.
pub trait Sink {
    /// The bytes taken so far, where the sink tells them, and how often a call failed.
    ghost told: { Self → SinkTold };

    /// Takes the whole piece, or fails and may have taken a beginning of it.
    fn write(&mut self, piece: &[u8]) -> Result<(), Failed>
        ensures ok { OnOk result (Took (told self.old).held (told self.new).held piece.now) }
        ensures failed { OnErr result
            (TookPart (told self.old).held (told self.new).held piece.now) }

        ensures later { (told self.old).faults ≤ (told self.new).faults }
        ensures cause { OnErr result (Rose (told self.old).faults (told self.new).faults) };

    /// How often a call has failed; it stands still at 2^64 - 1.
    fn faults(&self) -> u64
        ensures { result ≡ (told self.now).faults };
}
