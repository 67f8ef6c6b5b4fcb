ghost use Rattle.std.specs.Prelude.{◌≡◌, ℕ, ◌<◌, List, length};
ghost use Rattle.theory_meaning.specs.Fraction.{Fraction};
ghost use Rattle.theory_meaning.specs.Point.{Name};
ghost use Rattle.theory_polynomial.specs.PolynomialValue.{Values};
ghost use Rattle.theory_formula.specs.Formula.{Formula, EachAtom, IsTrueAt};
ghost use Rattle.theory_elimination.specs.Branches.{IsBranch, branch_plans};
ghost use Rattle.theory_elimination.specs.TestPoint.{TestPoint, test_points};
ghost use Rattle.theory_elimination.specs.WorkedPoints.{two_ends, points_of_two_ends, vanishing, plans_of_vanishing, inner_equation, plans_of_inner};
ghost use Rattle.theory_formula.specs.Symbols.{IsFree, IsProper, IsNamed};
ghost use Rattle.theory_elimination.specs.Substituted.{IsFormulaAt};
ghost use Rattle.theory_elimination.specs.Elimination.{with_value, IsLinear, BranchIsTrueAt, IsLevelBranch};

/// A branch is true only where some value of the symbol makes the formula true.
pub fn a_true_branch_has_a_value()
    ensures { (x : ℕ) (F : Formula) (k : ℕ) (G : Formula) (p : Values) → IsLinear x F →
        IsBranch x F k G → IsTrueAt G p → (v : Fraction) × IsTrueAt F (with_value x v p) }
{}

/// Each point of the formula is one of some branch.
pub fn a_true_formula_has_a_branch()
    ensures { (x : ℕ) (F : Formula) (p : Values) → IsLinear x F → IsTrueAt F p →
        (k : ℕ) × (k < length (branch_plans x F)) × BranchIsTrueAt x F p k }
{}

/// The symbol occurs in no branch but the third of an equation.
pub fn branches_are_free()
    ensures { (x : ℕ) (F : Formula) (k : ℕ) (G : Formula) →
        IsBranch x F k G → ¬ IsLevelBranch x F k → IsFree x G }
{}

/// A formula at a test point is one formula, and so is the k-th branch.
pub fn branches_are_single()
    ensures at_point { (x : ℕ) (point : TestPoint) (F G H : Formula) → IsFormulaAt x point F G →
        IsFormulaAt x point F H → G ≡ H }
    ensures branch { (x : ℕ) (F : Formula) (k : ℕ) (G H : Formula) → IsBranch x F k G →
        IsBranch x F k H → G ≡ H }
{}

/// The polynomials of a branch are canonical with a symbol, and no symbol comes in.
pub fn branches_make_no_symbol()
    ensures proper { (x : ℕ) (F : Formula) (k : ℕ) (G : Formula) → IsProper F →
        IsBranch x F k G → IsProper G }
    ensures free { (x y : ℕ) (F : Formula) (k : ℕ) (G : Formula) → IsFree y F →
        IsBranch x F k G → IsFree y G }
    ensures named { (x : ℕ) (ns : List Name) (F : Formula) (k : ℕ) (G : Formula) →
        EachAtom (IsNamed ns) F → IsBranch x F k G → EachAtom (IsNamed ns) G }
{}

/// Where the third branch of an equation is true, the formula is true at the same point.
pub fn a_true_level_branch_makes_the_formula_true()
    ensures level { (x : ℕ) (F : Formula) (k : ℕ) (G : Formula) (p : Values) → IsLinear x F →
        IsLevelBranch x F k → IsBranch x F k G → IsTrueAt G p → IsTrueAt F p }

    // A branch that holds the symbol is that one.
    ensures holds { (x : ℕ) (F : Formula) (k : ℕ) (G : Formula) (p : Values) → IsLinear x F →
        IsBranch x F k G → ¬ IsFree x G → IsTrueAt G p → IsTrueAt F p }
{}

/// Worked test points and branches.
pub fn branches_of_formulas()
    ensures ends { test_points 0 two_ends ≡ points_of_two_ends }
    ensures vanishing { branch_plans 0 vanishing ≡ plans_of_vanishing }
    ensures inner { branch_plans 0 inner_equation ≡ plans_of_inner }
{}
