ghost use Rattle.std.specs.Prelude.{◌≡◌};
ghost use Rattle.theory_meaning.specs.Verdict.{verdict_of_halves};
ghost use Rattle.theory_verdict.specs.Plain.{half_of, presence};

use theory_meaning::Verdict;
use theory_points::{Name, Point};
use theory_syntax::Claim;

/// Why a half or a condition is left open.
#[derive(Drop)]
pub enum Cause {
    /// Some symbol that is left has degree above 1 in some atom.
    Stuck(StuckOns),
    /// A polynomial passes its limit.
    Wide,
    /// A formula passes its limit.
    Large,
    /// The search passes its limit.
    Budget,
    /// The condition passes its limit.
    ManyLeaves,
}

/// A symbol and the first atom in which its degree is above 1.
#[derive(Drop)]
pub struct StuckOn {
    pub symbol: Name,
    pub atom: Claim,
}

/// One entry for each symbol that is left, in the order of the symbols.
pub type StuckOns = Vec<StuckOn>;

/// The answer to one question: is there a point?
#[derive(Drop)]
pub enum Half {
    /// There is, and this is one.
    Found(Point),
    /// There is, and the one that the method gives passes the bound of fractions.
    FoundWide,
    /// There is none.
    Absent,
    /// The method doesn't say.
    Left(Cause),
}

/// The verdict of the table for an example half and a counterexample half.
pub fn verdict_of(example: &Half, counter: &Half) -> Verdict
    ensures { result ≡ verdict_of_halves (half_of example.now) (half_of counter.now) }
{
    match (presence_of(example), presence_of(counter)) {
        (Some(true), Some(true)) => Verdict::Mixed,
        (Some(true), Some(false)) => Verdict::Holds,
        (Some(false), Some(true)) => Verdict::Fails,
        (Some(false), Some(false)) => Verdict::Contradictory,
        _ => Verdict::Undecided,
    }
}

// Whether there is a point, where the half says so.
fn presence_of(half: &Half) -> Option<bool>
    ensures { result ≡ presence (half_of half.now) }
{
    match half {
        Half::Found(_) | Half::FoundWide => Some(true),
        Half::Absent => Some(false),
        Half::Left(_) => None,
    }
}
