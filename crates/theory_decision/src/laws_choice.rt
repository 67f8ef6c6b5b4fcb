ghost use Rattle.std.specs.Prelude.{◌≡◌, ◌≢◌, ℕ, ◌<◌, List, [], length, None, Some};
ghost use Rattle.theory_meaning.specs.declared.words.Kind.{Kind};
ghost use Rattle.theory_formula.specs.Formula.{Formula};
ghost use Rattle.theory_formula.specs.Symbols.{IsProper};
ghost use Rattle.theory_elimination.specs.Elimination.{IsLinear};
ghost use Rattle.theory_decision.specs.declared.candidate.Candidate.{Candidate};
ghost use Rattle.theory_decision.specs.Choice.{Symbols, IsCandidate, candidates, choice, chosen};

/// Among candidates each kind takes the place of one.
pub fn a_choice_is_a_place()
    ensures { (k : Kind) (cs : List Candidate) → cs ≢ [] → choice k cs < length cs }
{}

/// The chosen symbol occurs, isn't kept and is linear, and where none is chosen none can be.
pub fn a_chosen_symbol_is_a_candidate()
    ensures chosen { (keep : Symbols) (k : Kind) (F : Formula) (x : ℕ) →
        chosen k (candidates keep F) ≡ Some x → IsCandidate keep F x }
    ensures linear { (keep : Symbols) (F : Formula) (x : ℕ) → IsProper F →
        IsCandidate keep F x → IsLinear x F }
    ensures none { (k : Kind) (cs : List Candidate) → chosen k cs ≡ None → cs ≡ [] }
{}
