ghost use Rattle.std.specs.Prelude.{◌≡◌};
ghost use Rattle.theory_edge.specs.Keepers.{opened_after};

use crate::files::EndFault;

/// Whether a keeper is opened.
#[derive(Clone, Copy, Debug, PartialEq, Eq)]
pub enum Opened {
    /// No opening has answered Ok.
    Never,
    /// The last opening answered Ok.
    Now,
    /// One answered Ok, and the last one didn't.
    Before,
}

impl Opened {
    /// Whether it is opened after an opening with this answer.
    pub fn after(self, answer: &Result<(), EndFault>) -> Self
        ensures { result ≡ opened_after self answer.now }
    {
        match (answer, self) {
            (Ok(()), _) => Opened::Now,
            (Err(_), Opened::Never) => Opened::Never,
            (Err(_), _) => Opened::Before,
        }
    }
}
