ghost use Rattle.std.specs.Prelude.{◌≡◌, [], ◌∷◌, true, false, None, Some};
ghost use Rattle.theory_meaning.specs.declared.words.Kind.TheVariants as kind;
ghost use Rattle.theory_formula.specs.Formula.{always, never, both, either};
ghost use Rattle.theory_decision.specs.Choice.{candidates, choice};
ghost use Rattle.theory_decision.specs.Finding.{stuck, wide, large, budget, reached, too_wide, is_large};
ghost use Rattle.theory_decision.specs.Search.{Visit, goes_on, hit, over};
ghost use Rattle.theory_decision.specs.Outcomes.{IsSearch, hits_by, empty, failed_by, AreLeaves, all_of, true_everywhere};
ghost use Rattle.theory_decision.specs.WorkedSearches.{three, unsure_first, alike, positive, negative, path_of_positive, curved, curved_atoms, hyperbola, level, two, of_size, visits};

/// Worked candidates: an equation within a disjunction is no top one.
pub fn worked_candidates()
    ensures top { candidates [] (both hyperbola level) ≡ two true }
    ensures inner { candidates [] (either hyperbola level) ≡ two false }
{}

/// Worked choices; of equals the first is taken.
pub fn worked_choices()
    ensures listed { choice kind.Listed three ≡ 0 }
    ensures rare { choice kind.Rare three ≡ 1 }
    ensures unit { choice kind.Unit three ≡ 2 }
    ensures signed { choice kind.Signed three ≡ 2 }
    ensures no_unit { choice kind.Unit unsure_first ≡ 0 }
    ensures surest { choice kind.Signed unsure_first ≡ 2 }
    ensures first_rare { choice kind.Rare alike ≡ 0 }
    ensures first_sure { choice kind.Signed alike ≡ 0 }
{}

/// Worked searches.
pub fn worked_searches()
    ensures hit { IsSearch kind.Unit positive (hits_by path_of_positive) }
    ensures no_point { IsSearch kind.Rare (both positive negative) empty }
    ensures curved { IsSearch kind.Listed curved (failed_by (stuck curved_atoms)) }
{}

/// Worked leaves: of y = 0 where y is kept, and of x > 0, which some x makes true.
pub fn worked_leaves()
    ensures leaf { AreLeaves (1 ∷ []) kind.Unit level (all_of (level ∷ [])) }
    ensures everywhere { AreLeaves (1 ∷ []) kind.Unit positive true_everywhere }
{}

/// The limits of a search: 512 atoms, depth 64, 20,000 visits. A node is simplified before.
pub fn limits_of_searches()
    ensures most_atoms { is_large 0 (of_size 512) ≡ false }
    ensures more_atoms { is_large 0 (of_size 513) ≡ true }
    ensures deepest { is_large 64 positive ≡ false }
    ensures decided { Visit [] kind.Unit 65 (reached always) (visits 0 None) (hit []) }
    ensures deeper { Visit [] kind.Unit 65 (reached positive) (visits 0 None)
        (goes_on (visits 1 (Some large))) }
    ensures last { Visit [] kind.Unit 0 (reached never) (visits 19999 None)
        (goes_on (visits 20000 None)) }
    ensures spent { Visit [] kind.Unit 0 (reached always) (visits 20000 None) (over budget) }
    ensures earlier { Visit [] kind.Unit 0 (reached always) (visits 20000 (Some wide))
        (over wide) }
    ensures too_wide { Visit [] kind.Unit 0 too_wide (visits 3 None)
        (goes_on (visits 4 (Some wide))) }
{}
