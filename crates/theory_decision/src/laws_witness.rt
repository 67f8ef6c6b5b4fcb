ghost use Rattle.std.specs.Prelude.{◌≡◌, ℕ, List, ◌∷◌, None, Some};
ghost use Rattle.theory_meaning.specs.declared.words.Kind.{Kind};
ghost use Rattle.theory_meaning.specs.Fraction.{Fraction};
ghost use Rattle.theory_polynomial.specs.PolynomialValue.{Values};
ghost use Rattle.theory_formula.specs.Formula.{Formula, IsTrueAt};
ghost use Rattle.theory_formula.specs.Symbols.{IsProper};
ghost use Rattle.theory_elimination.specs.Elimination.{IsLinear};
ghost use Rattle.theory_decision.specs.Choice.{Symbols};
ghost use Rattle.theory_decision.specs.Search.{Step};
ghost use Rattle.theory_decision.specs.Outcomes.{IsSearch, hits_by};
ghost use Rattle.theory_decision.specs.Witness.{IsOver, IsHit, IsWitness, IsWideWitness, IsPick, IsPickAt, only_at};

/// The path of a hit leads to a formula that is true everywhere.
pub fn a_hit_is_a_path()
    ensures { (kind : Kind) (F : Formula) (path : List Step) →
        IsSearch kind F (hits_by path) → IsHit kind F path }
{}

/// A value that is picked makes the formula true, and where none is picked none does.
pub fn a_pick_is_right()
    ensures picked { (x : ℕ) (F : Formula) (v : Fraction) → IsPick x F (Some v) →
        IsTrueAt F (only_at x v) }
    ensures nowhere { (x : ℕ) (F : Formula) → IsLinear x F → IsPick x F None →
        (v : Fraction) → ¬ IsTrueAt F (only_at x v) }
{}

/// Along the path of a hit each step that adds a value finds one.
pub fn a_step_has_a_pick()
    ensures { (kind : Kind) (n : ℕ) (F : Formula) (s : Step) (path : List Step) (given : Symbols)
        (q : Values) → IsProper F → IsOver n F → IsHit kind F (s ∷ path) →
        IsWitness n path given q → ¬ IsPickAt n s q None }
{}

/// The witness of a hit's path makes the formula true.
pub fn a_witness_is_right()
    ensures { (kind : Kind) (n : ℕ) (F : Formula) (path : List Step) (given : Symbols)
        (p : Values) → IsProper F → IsOver n F → IsHit kind F path → IsWitness n path given p →
        IsTrueAt F p }
{}

/// A path has one witness, and none where a step of it passes a limit.
pub fn a_path_has_one_witness()
    ensures same { (n : ℕ) (path : List Step) (given taken : Symbols) (p q : Values) →
        IsWitness n path given p → IsWitness n path taken q → p ≡ q }
    ensures wide { (n : ℕ) (path : List Step) (given : Symbols) (p : Values) →
        IsWitness n path given p → ¬ IsWideWitness n path }
{}
