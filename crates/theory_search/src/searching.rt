ghost use Rattle.std.specs.Prelude.{◌≡◌, reverse, IfOk};
ghost use Rattle.theory_formula.specs.Symbols.{IsProper};
ghost use Rattle.theory_decision.specs.Outcomes.{IsSearch, AreLeaves};
ghost use Rattle.theory_decision.specs.Outcomes as plain;
ghost use Rattle.theory_decision.specs.Search.{IsRun};
ghost use Rattle.theory_signs.specs.Plain.{formula_of};
ghost use Rattle.theory_search.specs.Outcomes.{outcome_of, plain_leaves};
ghost use Rattle.theory_search.specs.Right.{IsRight, AreRight, HoldKeptAlone};
ghost use Rattle.theory_search.specs.Runs.{run_of, HasNoLeaf};

use crate::atoms::atoms;
use crate::finding::Node;
use crate::leaf_list::LeafList;
use crate::outcome::{Failure, Leaves, Outcome};
use crate::policy::Policy;
use crate::progress::{Progress, Run};
use crate::visit::visit;
use std::alloc::Global;
use theory_points::NoMemory;
use theory_signs::{Formula, Path};

/// The search for a point of a formula, by the order of a policy.
pub fn search(alloc: Global, formula: &Formula, policy: &Policy) -> Result<Outcome, NoMemory>
    ensures written { IfOk result (λ o.
        IsSearch policy.now.kind (formula_of formula.now) (outcome_of o)) }

    // A hit shows that some point makes the formula true, and an empty search that none does.
    ensures right { IfOk result (λ o. IsRight (formula_of formula.now) (outcome_of o)) }
{
    let (run, progress) = run_through(alloc, formula, &[], policy)?;
    Ok(outcome(run, progress))
}

/// The leaves of a formula over symbols to keep, by the order of a policy. Kept symbols may stand
/// in any order, and some may occur nowhere.
pub fn leaves(
    alloc: Global,
    formula: &Formula,
    keep: &[u8],
    policy: &Policy,
) -> Result<Leaves, NoMemory>
    ensures written { IfOk result (λ l.
        AreLeaves keep.now policy.now.kind (formula_of formula.now) (plain_leaves l)) }

    // Some values of the other symbols make the formula true exactly where some leaf is true.
    ensures right { IfOk result (λ l.
        AreRight keep.now (formula_of formula.now) (plain_leaves l)) }
    ensures kept { IfOk result (λ l. HoldKeptAlone keep.now (plain_leaves l)) }
{
    let (run, progress) = run_through(alloc, formula, keep, policy)?;
    Ok(leaves_by(run, progress))
}

/// The run from a formula, and how far it comes.
fn run_through(
    alloc: Global,
    formula: &Formula,
    keep: &[u8],
    policy: &Policy,
) -> Result<(Run, Progress), NoMemory>
    ensures written { IfOk result (λ r.
        IsRun keep.now policy.now.kind (formula_of formula.now) (run_of r.0 r.1)) }
    ensures proper { IfOk result (λ _. IsProper (formula_of formula.now)) }
{
    // Reading all atoms tells that each polynomial is canonical.
    let _read = atoms(alloc, formula)?;
    let root = Node::Reached(formula.copy(alloc)?);
    let mut progress = Progress {
        visited: 0,
        failure: None,
        leaves: LeafList::new(alloc),
    };
    let run = visit(alloc, policy, keep, 0, &root, &mut progress)?;
    Ok((run, progress))
}

fn outcome(run: Run, progress: Progress) -> Outcome
    requires { HasNoLeaf (run_of run progress) }
    ensures { plain.IsOutcome (run_of run progress) (outcome_of result) }
{
    let Progress { failure: first, .. } = progress;
    match run {
        Run::Hit(path) => Outcome::Hit(turned(path)),
        Run::GoesOn => match first {
            Some(failure) => Outcome::Failed(failure),
            None => Outcome::Empty,
        },
        Run::Over(last) => match first {
            Some(failure) => Outcome::Failed(failure),
            None => Outcome::Failed(last),
        },
    }
}

fn leaves_by(run: Run, progress: Progress) -> Leaves
    ensures { plain_leaves result ≡ plain.leaves_of (run_of run progress) }
{
    let Progress {
        failure: first,
        leaves,
        ..
    } = progress;
    match run {
        Run::Hit(_) => Leaves::Everywhere,
        Run::GoesOn => match first {
            Some(failure) => Leaves::Failed(failure),
            None => Leaves::All(leaves.formulas),
        },
        Run::Over(last) => match first {
            Some(failure) => Leaves::Failed(failure),
            None => Leaves::Failed(last),
        },
    }
}

/// The path with its first step first.
fn turned(path: Path) -> Path
    ensures { result.items ≡ reverse path.items }
{
    let mut path = path;
    path.reverse();
    path
}
