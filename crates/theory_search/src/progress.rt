ghost use Rattle.std.specs.Prelude.{◌≡◌, ◌<◌, IfOk};
ghost use Rattle.theory_decision.specs.Search.{counted, met};
ghost use Rattle.theory_search.specs.Outcomes.{failure_of};
ghost use Rattle.theory_search.specs.Runs.{progress_of, KeepsLeaf};
ghost use Rattle.theory_signs.specs.Plain.{formula_of};

use crate::leaf_list::LeafList;
use crate::outcome::Failure;
use std::alloc::Global;
use theory_points::NoMemory;
use theory_signs::{Formula, Path};

/// How far a run has come.
#[derive(Drop)]
pub struct Progress {
    /// How many nodes were visited, at most 20,000.
    pub visited: u32,
    /// The first failure that was met.
    pub failure: Option<Failure>,
    pub leaves: LeafList,
}

/// What comes of a visit.
#[derive(Drop)]
pub enum Run {
    GoesOn,
    /// The path from here, with its last step first.
    Hit(Path),
    /// The budget is spent, or there are too many leaves.
    Over(Failure),
}

impl Progress {
    /// One more node.
    pub fn count(&mut self)
        requires { self.old.visited < 20000 }
        ensures { progress_of self.new ≡ counted (progress_of self.old) }
    {
        self.visited += 1;
    }

    /// One more node, with a failure at it; the first one stays.
    pub fn meet(&mut self, failure: Failure)
        requires { self.old.visited < 20000 }
        ensures { progress_of self.new ≡ met (failure_of failure) (progress_of self.old) }
    {
        self.visited += 1;
        if self.failure.is_none() {
            self.failure = Some(failure);
        }
    }

    /// One more node, with a leaf at it, unless there would be too many leaves.
    pub fn keep(&mut self, alloc: Global, leaf: Formula) -> Result<bool, NoMemory>
        requires { self.old.visited < 20000 }
        ensures { IfOk result
            (KeepsLeaf (formula_of leaf) (progress_of self.old) (progress_of self.new)) }
    {
        if !self.leaves.add(alloc, leaf)? {
            return Ok(false);
        }
        self.visited += 1;
        Ok(true)
    }
}
