ghost use Rattle.std.specs.Prelude.{◌≡◌, ◌<◌, ◌≤◌, length, reverse, IfOk};
ghost use Rattle.theory_elimination.specs.Elimination.{IsLinear};
ghost use Rattle.theory_decision.specs.Finding.{IsNode};
ghost use Rattle.theory_decision.specs.Search.{Visit};
ghost use Rattle.theory_decision.specs.Search as plain_run;
ghost use Rattle.theory_signs.specs.Plain.{formula_of};
ghost use Rattle.theory_subst.specs.Plans.{ArePlansOf, plans_of};
ghost use Rattle.theory_search.specs.declared.progress.Progress.{Progress};
ghost use Rattle.theory_search.specs.Entered.{IsEntered, IsKept};
ghost use Rattle.theory_search.specs.Outcomes.{path_of};
ghost use Rattle.theory_search.specs.Runs.{node_of, progress_of, run_of};

use crate::finding::{Found, Node, finding};
use crate::outcome::Failure;
use crate::policy::Policy;
use crate::progress::{Progress, Run};
use std::alloc::Global;
use theory_points::{Limit, NoMemory};
use theory_signs::{Formula, Path, PathStep};
use theory_subst::{Plans, branch_at, branch_plans};

/// A visit of a node at a depth; the plans of its branches are made once.
pub fn visit(
    alloc: Global,
    policy: &Policy,
    keep: &[u8],
    depth: u32,
    node: &Node,
    progress: &mut Progress,
) -> Result<Run, NoMemory>
    requires { depth ≤ 65 }
    ensures { IfOk result (λ r. Visit keep.now policy.now.kind depth (node_of node.now)
        (progress_of progress.old) (run_of r progress.new)) }
{
    match enter(alloc, policy, keep, depth, node, progress)? {
        Entered::GoesOn => Ok(Run::GoesOn),
        Entered::Hit => Ok(Run::Hit(Vec::new(alloc))),
        Entered::Over(failure) => Ok(Run::Over(failure)),
        Entered::Below(x, simple) => {
            let plans = branch_plans(alloc, x, &simple)?;
            for k in 0..plans.len() {
                let branch = branch_node(alloc, x, &simple, &plans, k)?;
                match visit(alloc, policy, keep, depth + 1, &branch, progress)? {
                    Run::GoesOn => {}
                    Run::Hit(path) => return hit_below(x, simple, path),
                    Run::Over(failure) => return Ok(Run::Over(failure)),
                }
            }
            Ok(Run::GoesOn)
        }
    }
}

/// What comes of a node before its branches.
#[derive(Drop)]
pub enum Entered {
    GoesOn,
    Hit,
    /// The run is over, by this failure or one that was met before.
    Over(Failure),
    /// The branches of a formula in a symbol are to be visited.
    Below(u8, Formula),
}

fn enter(
    alloc: Global,
    policy: &Policy,
    keep: &[u8],
    depth: u32,
    node: &Node,
    progress: &mut Progress,
) -> Result<Entered, NoMemory>
    ensures { IfOk result (IsEntered keep.now policy.now.kind depth (node_of node.now)
        (progress_of progress.old) (progress_of progress.new)) }
{
    if progress.visited >= 20000 {
        return Ok(Entered::Over(Failure::Budget));
    }
    match finding(alloc, policy, keep, depth, node)? {
        Found::Nowhere => {
            progress.count();
            Ok(Entered::GoesOn)
        }
        Found::Everywhere => Ok(Entered::Hit),
        Found::Fails(failure) => {
            progress.meet(failure);
            Ok(Entered::GoesOn)
        }
        Found::Leaf(leaf) => keep_leaf(alloc, leaf, progress),
        Found::Eliminates(x, simple) => {
            progress.count();
            Ok(Entered::Below(x, simple))
        }
    }
}

/// A leaf is kept, or the run is over.
fn keep_leaf(alloc: Global, leaf: Formula, progress: &mut Progress) -> Result<Entered, NoMemory>
    requires { progress.old.visited < 20000 }
    ensures { IfOk result (IsKept (formula_of leaf)
        (progress_of progress.old) (progress_of progress.new)) }
{
    if progress.keep(alloc, leaf)? {
        Ok(Entered::GoesOn)
    } else {
        Ok(Entered::Over(Failure::ManyLeaves))
    }
}

/// The `k`-th branch as a node.
fn branch_node(
    alloc: Global,
    x: u8,
    formula: &Formula,
    plans: &Plans,
    k: usize,
) -> Result<Node, NoMemory>
    requires symbol { x < 32 }
    requires linear { IsLinear x (formula_of formula.now) }
    requires planned { ArePlansOf x (formula_of formula.now) plans.now }
    requires within { k < length (plans_of (formula_of formula.now) plans.now) }
    ensures { IfOk result (λ N. IsNode x (formula_of formula.now) k (node_of N)) }
{
    match branch_at(alloc, x, formula, plans, k) {
        Ok(Some(found)) => Ok(Node::Reached(found)),
        Ok(None) => unreachable!(),
        Err(Limit::Wide) => Ok(Node::TooWide),
        Err(Limit::Memory) => Err(NoMemory),
    }
}

/// A hit below a formula has it as a step of its path.
fn hit_below(x: u8, formula: Formula, path: Path) -> Result<Run, NoMemory>
    ensures { IfOk result (λ r. (s : Progress) → run_of r s
        ≡ plain_run.below x (formula_of formula)
        (plain_run.hit (path_of (reverse path.items)))) }
{
    let mut path = path;
    path.push(PathStep { formula, symbol: x })?;
    Ok(Run::Hit(path))
}
