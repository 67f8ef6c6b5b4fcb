ghost use Rattle.std.specs.Prelude.{◌≡◌, ◌↔◌, ℕ, List, [], ◌∷◌, ◌++◌, if◌then◌else◌, Some, None, codes};
ghost use Rattle.std.specs.List.{list_any};
ghost use Rattle.std.specs.Str.{bytes_eq};
ghost use Rattle.theory_meaning.specs.declared.words.Kind.TheVariants.{Rare};
ghost use Rattle.theory_meaning.specs.Point.{Name, Point, AreDistinct};
ghost use Rattle.theory_meaning.specs.Region.{AreAmong};
ghost use Rattle.theory_meaning.specs.Truth.{truth_of};
ghost use Rattle.theory_grammar.specs.Printed.{claim_text};
ghost use Rattle.theory_derivative.specs.WorkedModels.{tax_model};
ghost use Rattle.theory_session.specs.Check.{questions_of, question_about};
ghost use Rattle.theory_session.specs.Derive.{derivation};
ghost use Rattle.theory_session.specs.Meaning.{IsFirstUnlisted, ConditionsOfSentencesAreRight};
ghost use Rattle.theory_session.specs.Names.{each_once, first_unlisted};
ghost use Rattle.theory_session.specs.Printed.{reply_text};
ghost use Rattle.theory_session.specs.WorkedCondition.{printed_condition, short_condition};

/// The same names, each once, in the order in which they first stand.
pub fn names_are_each_once()
    ensures distinct { (names : List Name) → AreDistinct (each_once names) }
    ensures no_others { (names : List Name) → AreAmong (each_once names) names }
    ensures all { (names : List Name) → AreAmong names (each_once names) }
    ensures last { (names : List Name) (name : Name) → each_once (names ++ name ∷ []) ≡
        (if list_any (bytes_eq name) names then each_once names else each_once names ++ name ∷ []) }
{}

/// No place is found exactly where all names are listed, and one exactly of the first that isn't.
pub fn first_unlisted_names_are_found()
    ensures none { (listed names : List Name) →
        (first_unlisted listed names ≡ None) ↔ AreAmong names listed }
    ensures found { (listed names : List Name) (place : ℕ) →
        (first_unlisted listed names ≡ Some place) ↔ IsFirstUnlisted listed names place }
{}

/// A condition that is right of the counterexample sentence is right of the model.
pub fn conditions_of_sentences_are_right()
    ensures { ConditionsOfSentencesAreRight }
{}

/// The one question of a check of the tax model.
pub fn worked_questions()
    ensures { questions_of tax_model [] Rare ≡
        question_about (codes "tax") [] Rare (codes "C1") ∷ [] }
{}

/// The condition of the tax model on its two slopes says the same at each point as a shorter one.
pub fn worked_condition()
    ensures same { (p : Point) → truth_of printed_condition p ≡ truth_of short_condition p }
    ensures printed { claim_text printed_condition ≡
        codes "[D.p - S.r <= 0 or D.p >= 0 or S.r <= 0 or D.p + S.r < 0]" ++ codes " and "
        ++ codes "[D.p - S.r >= 0 or D.p >= 0 or S.r <= 0 or D.p + S.r > 0]" }
    ensures short { claim_text short_condition ≡ codes "D.p >= 0 or S.r <= 0 or D.p + S.r > 0" }
{}

/// Where nothing is differentiated nothing is printed.
pub fn nothing_is_printed_of_no_equation()
    ensures { reply_text (derivation []) ≡ [] }
{}
