ghost use Rattle.std.specs.Prelude.{◌≡◌, ℕ};
ghost use Rattle.theory_decision.specs.Engine.{engine};

use crate::halves::written_half;
use crate::regions::written_region;
use std::alloc::Global;
use theory_meaning::Kind;
use theory_points::{Names, NoMemory};
use theory_search::Policies;
use theory_syntax::Sentence;
use theory_verdict::{Decider, Half, Region};

/// Decides sentences by elimination of their symbols, with policies that it borrows.
#[derive(Drop)]
pub struct Engine<'a> {
    policies: &'a Policies,
    runs: u64,
}

impl<'a> Engine<'a> {
    /// An engine that was asked nothing yet.
    pub fn new(policies: &'a Policies) -> Self
        ensures { result.runs ≡ 0 }
    {
        Engine { policies, runs: 0 }
    }
}

impl<'a> Decider for Engine<'a> {
    ghost meanings = { engine };

    ghost asked = { λ e. e.runs };

    fn runs(&self) -> u64 {
        self.runs
    }

    fn half(&mut self, alloc: Global, sentence: &Sentence, kind: Kind) -> Result<Half, NoMemory> {
        self.runs = self.runs.saturating_add(1);
        written_half(alloc, self.policies.policy(kind), sentence)
    }

    fn region(
        &mut self,
        alloc: Global,
        sentence: &Sentence,
        on: &Names,
        kind: Kind,
    ) -> Result<Region, NoMemory> {
        self.runs = self.runs.saturating_add(1);
        written_region(alloc, self.policies.policy(kind), sentence, on)
    }
}
