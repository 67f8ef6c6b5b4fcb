ghost use Rattle.std.specs.Prelude.{◌≡◌, ℕ, ◌≤◌, length, IfOk};
ghost use Rattle.theory_lowering.specs.LoweringLimits.{AreListed};
ghost use Rattle.theory_meaning.specs.Deciding.{Meanings, IsHalf, IsRegion};
ghost use Rattle.theory_meaning.specs.Faults.{one_more};
ghost use Rattle.theory_meaning.specs.Point.{AreDistinct};
ghost use Rattle.theory_meaning.specs.Region.{AreAmong};
ghost use Rattle.theory_syntax.specs.Plain.{claims_of};
ghost use Rattle.theory_verdict.specs.Plain.{half_of, region_of};

use crate::answer::Region;
use crate::half::Half;
use std::alloc::Global;
use theory_meaning::Kind;
use theory_points::{Names, NoMemory};
use theory_syntax::Sentence;

/// Decides whether some point meets a sentence, and where none does; after want of memory it can
/// be asked again.
pub trait Decider {
    /// What a value of this type may answer, whatever it has been asked before.
    ghost meanings: { Meanings };

    /// How often it was asked.
    ghost asked: { Self → ℕ };

    /// How often it was asked; the count stands still at 2^64 - 1.
    fn runs(&self) -> u64
        ensures { result ≡ asked self.now };

    /// Whether some point meets the sentence, by an order of elimination.
    fn half(&mut self, alloc: Global, sentence: &Sentence, kind: Kind) -> Result<Half, NoMemory>
        requires few { length sentence.now.symbols ≤ 32 }
        requires distinct { AreDistinct sentence.now.symbols }
        requires listed { AreListed sentence.now.symbols
            (claims_of sentence.now.conjuncts.items) }
        // The half is right for all points, and one that the meanings allow.
        ensures half { IfOk result (λ h. IsHalf meanings sentence.now.symbols
            (claims_of sentence.now.conjuncts.items) kind (half_of h)) }
        // A call counts as one, whatever it gives.
        ensures counted { asked self.new ≡ one_more (asked self.old) };

    /// The condition on some of the listed names under which no point meets the sentence, by an
    /// order of elimination. Of the sentence of a claim's counterexamples, this is the condition
    /// under which the claim holds.
    fn region(
        &mut self,
        alloc: Global,
        sentence: &Sentence,
        on: &Names,
        kind: Kind,
    ) -> Result<Region, NoMemory>
        requires few { length sentence.now.symbols ≤ 32 }
        requires distinct { AreDistinct sentence.now.symbols }
        requires listed { AreListed sentence.now.symbols
            (claims_of sentence.now.conjuncts.items) }
        requires chosen { AreAmong on.now sentence.now.symbols }
        requires once { AreDistinct on.now }
        // The condition is right for all points, and one that the meanings allow.
        ensures region { IfOk result (λ r. IsRegion meanings sentence.now.symbols
            (claims_of sentence.now.conjuncts.items) on.now kind (region_of r)) }
        // A call counts as one, whatever it gives.
        ensures counted { asked self.new ≡ one_more (asked self.old) };
}
