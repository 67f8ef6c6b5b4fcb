ghost use Rattle.std.specs.Prelude.{◌≡◌, ◌≢◌, List, [], ◌∷◌, codes};
ghost use Rattle.std.specs.List.{All, join_with_byte};
ghost use Rattle.clap.specs.Words.{Text, fault_of};
ghost use Rattle.theory_meaning.specs.declared.words.Kind.{Kind};
ghost use Rattle.theory_meaning.specs.declared.words.Kind.TheVariants as kind;
ghost use Rattle.theory_words.specs.Arguments.{check_arguments, derive_arguments};
ghost use Rattle.theory_words.specs.Commands.{Command, check, comma, derive, parts_at_commas, IsCommand, IsNoCommand};
ghost use Rattle.theory_words.specs.Plain.{IsNoOption, check_words, check_words_by, ordered_check_words, check_words_on, named_check_words, full_check_words, derive_words};

/// Words are at most one command.
pub fn words_are_one_command()
    ensures { (words : List Text) (a b : Command) → IsCommand words a → IsCommand words b → a ≡ b }
{}

/// Words are no command where the first names none, or `clap` promises a fault of those behind it.
pub fn refused_words_are_no_command()
    ensures none { IsNoCommand [] }
    ensures name { (word : Text) (behind : List Text) → word ≢ codes "check" →
        word ≢ codes "derive" → IsNoCommand (word ∷ behind) }
    ensures check { (behind : List Text) → fault_of check_arguments behind ≢ [] →
        IsNoCommand (codes "check" ∷ behind) }
    ensures derive { (behind : List Text) → fault_of derive_arguments behind ≢ [] →
        IsNoCommand (codes "derive" ∷ behind) }
{}

/// Words are a command where the first names one and `clap` promises no fault of those behind it.
pub fn other_words_are_a_command()
    ensures check { (behind : List Text) → fault_of check_arguments behind ≡ [] →
        (command : Command) × IsCommand (codes "check" ∷ behind) command }
    ensures derive { (behind : List Text) → fault_of derive_arguments behind ≡ [] →
        (command : Command) × IsCommand (codes "derive" ∷ behind) command }
{}

/// A check that names no order is by `unit`, and without `--on` it has no names.
pub fn a_check_is_by_unit()
    ensures { (file : Text) → IsNoOption file →
        IsCommand (check_words file) (check file kind.Unit []) }
{}

/// An order may be named on either side of the file.
pub fn a_check_is_by_the_order_named()
    ensures behind { (file : Text) (order : Kind) → IsNoOption file →
        IsCommand (check_words_by file order) (check file order []) }
    ensures before { (file : Text) (order : Kind) → IsNoOption file →
        IsCommand (ordered_check_words order file) (check file order []) }
{}

/// Names may be given on either side of the file.
pub fn a_check_is_on_the_names_given()
    ensures behind { (file names : Text) → IsNoOption file → IsNoOption names →
        IsCommand (check_words_on file names) (check file kind.Unit (parts_at_commas names)) }
    ensures before { (file names : Text) → IsNoOption file → IsNoOption names →
        IsCommand (named_check_words names file) (check file kind.Unit (parts_at_commas names)) }
{}

/// The file, an order and names may stand in each order.
pub fn a_check_may_have_both_options()
    ensures { (file : Text) (order : Kind) (names : Text) → IsNoOption file → IsNoOption names →
        All (λ words. IsCommand (codes "check" ∷ words) (check file order (parts_at_commas names)))
        (full_check_words file order names) }
{}

/// Names stand between commas: none has one, joined by commas they are the text again, and the
/// empty text is one empty name.
pub fn names_stand_between_commas()
    ensures apart { (text : Text) → All (All (λ byte. byte ≢ comma)) (parts_at_commas text) }
    ensures joined { (text : Text) → join_with_byte comma (parts_at_commas text) ≡ text }
    ensures empty { parts_at_commas [] ≡ [] ∷ [] }
{}

/// A derivation is of the file.
pub fn a_derivation_is_of_the_file()
    ensures { (file : Text) → IsNoOption file → IsCommand (derive_words file) (derive file) }
{}
