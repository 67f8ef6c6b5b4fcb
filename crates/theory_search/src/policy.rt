ghost use Rattle.std.specs.Prelude.{◌≡◌};
ghost use Rattle.theory_decision.specs.Choice.{choice};
ghost use Rattle.theory_search.specs.Asked.{IsAsked, AnswersChoice};

use crate::candidacy::Candidates;
use theory_meaning::Kind;

/// A choice among candidates, by place.
pub type Choose = Box<dyn Fn(&Candidates) -> usize>;

/// A kept choice, beside the fact that it is the written one of its kind.
#[derive(Drop)]
pub struct Policy {
    pub kind: Kind,
    pub choose: Choose,
    ghost chooses: { AnswersChoice (Choose.pre choose) (Choose.post choose) kind },
}

impl Policy {
    /// On each list within the bounds the choice can be called, and answers the written one.
    pub fn new(kind: Kind, choose: Choose) -> Policy
        requires { AnswersChoice (Choose.pre choose) (Choose.post choose) kind }
        ensures { result.kind ≡ kind }
    {
        Policy { kind, choose }
    }

    /// The place of the candidate that is taken, from 0.
    pub fn place(&self, candidates: &Candidates) -> usize
        requires { IsAsked candidates.now.items }
        ensures { result ≡ choice self.now.kind candidates.now.items }
    {
        (self.choose)(candidates)
    }
}
