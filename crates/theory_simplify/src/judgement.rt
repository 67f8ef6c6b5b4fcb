ghost use Rattle.std.specs.Prelude.{◌≡◌};
ghost use Rattle.theory_elimination.specs.Judging.{Judging};
ghost use Rattle.theory_simplify.specs.Parts.{facts_of};
ghost use Rattle.theory_simplify.specs.Judged.{judging_of, said_by};

use crate::facts::judged;
use crate::lent::LentAtom;
use crate::possible::judged_by_signs;

/// How conditions are judged.
#[derive(Clone, Copy)]
pub enum Judgement {
    /// By the facts on their polynomials.
    ByFacts,
    /// By these, and what they leave open by the signs of its symbols.
    BySigns,
}

/// Which facts say something of a condition.
#[derive(Clone, Copy)]
pub enum Source {
    /// Those on its polynomial.
    Polynomial,
    /// Those on its symbols.
    Symbols,
}

/// What the facts say of a condition that stands alone; None where they leave it open.
pub fn judged_alone(
    judgement: Judgement,
    facts: &[LentAtom<'_>],
    atom: &LentAtom<'_>,
) -> Option<bool>
    ensures { result
        ≡ (judging_of judgement).alone (facts_of facts.now) atom.now.poly atom.now.signs }
{
    match (judgement, judged(facts, atom)) {
        (Judgement::BySigns, None) => judged_by_signs(facts, atom),
        (_, known) => known,
    }
}

/// What the facts of one kind say of a condition; None where they leave it open.
pub fn judged_from(source: Source, facts: &[LentAtom<'_>], atom: &LentAtom<'_>) -> Option<bool>
    ensures { result ≡ said_by source (facts_of facts.now) atom.now.poly atom.now.signs }
{
    match source {
        Source::Polynomial => judged(facts, atom),
        Source::Symbols => judged_by_signs(facts, atom),
    }
}
