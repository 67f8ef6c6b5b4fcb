ghost use Rattle.std.specs.Prelude.{ℕ, ◌<◌, length};
ghost use Rattle.theory_formula.specs.Formula.{Formula};
ghost use Rattle.theory_elimination.specs.Branches.{IsBranch, branch_plans};
ghost use Rattle.theory_elimination.specs.Elimination.{IsLinear};

/// Each branch can be written.
pub fn each_branch_is_written()
    ensures { (x : ℕ) (F : Formula) (k : ℕ) → IsLinear x F → k < length (branch_plans x F) →
        (G : Formula) × IsBranch x F k G }
{}
