ghost use Rattle.std.specs.Prelude.{◌≡◌, ◌↔◌, ℕ, List, [], Some};
ghost use Rattle.theory_meaning.specs.declared.words.Kind.{Kind};
ghost use Rattle.theory_polynomial.specs.PolynomialValue.{Values};
ghost use Rattle.theory_formula.specs.Formula.{Formula, IsTrueAt, truth_at};
ghost use Rattle.theory_formula.specs.Symbols.{IsFree, IsProper};
ghost use Rattle.theory_decision.specs.Choice.{Symbols, others};
ghost use Rattle.theory_decision.specs.Finding.{Failure, Node, IsFreeFailure};
ghost use Rattle.theory_decision.specs.Search.{Step, Progress, Run, goes_on, over, Visit, IsRun};
ghost use Rattle.theory_decision.specs.Outcomes.{Outcome, Leaves, IsSearch, hits_by, empty, failed_by, AreLeaves, all_of, true_everywhere};
ghost use Rattle.theory_decision.specs.Regions.{AgreeOn, IsTrueFor, SomeIsTrueAt};

/// An empty search shows that no point makes the formula true.
pub fn an_empty_search_has_no_point()
    ensures { (kind : Kind) (F : Formula) → IsProper F → IsSearch kind F empty →
        (p : Values) → ¬ IsTrueAt F p }
{}

/// A hit shows that some point does.
pub fn a_hit_has_a_point()
    ensures { (kind : Kind) (F : Formula) (path : List Step) → IsProper F →
        IsSearch kind F (hits_by path) → (p : Values) × IsTrueAt F p }
{}

/// A formula has at most one outcome, and one list of leaves.
pub fn a_search_has_one_outcome()
    ensures search { (kind : Kind) (F : Formula) (o u : Outcome) → IsProper F →
        IsSearch kind F o → IsSearch kind F u → o ≡ u }
    ensures leaves { (keep : Symbols) (kind : Kind) (F : Formula) (l m : Leaves) → IsProper F →
        AreLeaves keep kind F l → AreLeaves keep kind F m → l ≡ m }
{}

/// Each formula has an outcome, and leaves.
pub fn each_search_has_an_outcome()
    ensures search { (kind : Kind) (F : Formula) → IsProper F → (o : Outcome) × IsSearch kind F o }
    ensures leaves { (keep : Symbols) (kind : Kind) (F : Formula) → IsProper F →
        (l : Leaves) × AreLeaves keep kind F l }
{}

/// A failure that was met before is the one that counts.
pub fn the_first_failure_counts()
    ensures goes_on { (keep : Symbols) (kind : Kind) (f : Failure) (d : ℕ) (N : Node)
        (s t : Progress) → s.failure ≡ Some f → Visit keep kind d N s (goes_on t) →
        t.failure ≡ Some f }
    ensures over { (keep : Symbols) (kind : Kind) (f g : Failure) (d : ℕ) (N : Node)
        (s : Progress) → s.failure ≡ Some f → Visit keep kind d N s (over g) → g ≡ f }
{}

/// A search that fails is stuck on atoms of the symbols of its formula alone.
pub fn a_failure_makes_no_symbol()
    ensures { (y : ℕ) (kind : Kind) (F : Formula) (f : Failure) → IsFree y F →
        IsSearch kind F (failed_by f) → IsFreeFailure y f }
{}

/// Where no symbol is kept no leaf is found.
pub fn a_search_finds_no_leaf()
    ensures { (kind : Kind) (F : Formula) (s : Progress) → IsProper F →
        IsRun [] kind F (goes_on s) → s.leaves ≡ [] }
{}

/// Points that agree on the kept symbols give a leaf the same truth.
pub fn a_leaf_reads_kept_symbols()
    ensures { (keep : Symbols) (S : Formula) (p q : Values) → IsProper S → others keep S ≡ [] →
        AgreeOn keep p q → truth_at S p ≡ truth_at S q }
{}

/// Some leaf is true exactly where some values of the symbols that aren't kept make it true.
pub fn leaves_are_the_condition()
    ensures leaves { (keep : Symbols) (kind : Kind) (F : Formula) (leaves : List Formula) →
        IsProper F → AreLeaves keep kind F (all_of leaves) → (p : Values) →
        SomeIsTrueAt p leaves ↔ IsTrueFor keep p F }
    ensures everywhere { (keep : Symbols) (kind : Kind) (F : Formula) → IsProper F →
        AreLeaves keep kind F true_everywhere → (p : Values) → IsTrueFor keep p F }
{}
