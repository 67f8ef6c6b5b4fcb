ghost use Rattle.std.specs.Prelude.{◌≡◌, IfOk};
ghost use Rattle.theory_decision.specs.Outcomes.{IsSearch};
ghost use Rattle.theory_signs.specs.Plain.{formula_of};
ghost use Rattle.theory_search.specs.Outcomes.{outcome_of};
ghost use Rattle.theory_search.specs.Right.{IsRight};

use crate::four_policies;
use crate::outcome::Outcome;
use crate::searching::search;
use std::alloc::Global;
use theory_meaning::Kind;
use theory_points::NoMemory;
use theory_signs::Formula;

/// The policies of the four kinds, each a boxed closure over its order, for the caller to keep:
/// a function that boxes a closure may not hand it out. Want of memory goes by the caller's `?`.
#[macro_export]
macro_rules! four_policies {
    ($alloc:expr) => {
        $crate::Policies::new(
            $crate::Policy::new(
                $crate::Kind::Listed,
                Box::new($alloc, |cs: &$crate::Candidates| $crate::orders::listed(cs))?,
            ),
            $crate::Policy::new(
                $crate::Kind::Rare,
                Box::new($alloc, |cs: &$crate::Candidates| $crate::orders::rare(cs))?,
            ),
            $crate::Policy::new(
                $crate::Kind::Unit,
                Box::new($alloc, |cs: &$crate::Candidates| $crate::orders::unit(cs))?,
            ),
            $crate::Policy::new(
                $crate::Kind::Signed,
                Box::new($alloc, |cs: &$crate::Candidates| $crate::orders::signed(cs))?,
            ),
        )
    };
}

/// The search by the order of a kind.
pub fn search_by(alloc: Global, formula: &Formula, kind: Kind) -> Result<Outcome, NoMemory>
    ensures written { IfOk result (λ o.
        IsSearch kind (formula_of formula.now) (outcome_of o)) }

    // A hit shows that some point makes the formula true, and an empty search that none does.
    ensures right { IfOk result (λ o. IsRight (formula_of formula.now) (outcome_of o)) }
{
    let policies = four_policies!(alloc);
    search(alloc, formula, policies.policy(kind))
}
