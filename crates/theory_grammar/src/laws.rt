ghost use Rattle.std.specs.Prelude.{ℕ, ◌<◌};
ghost use Rattle.theory_grammar.specs.LineFault.{IsUnambiguous, SpellsOrFails, NeverBoth, HasOneFault};
ghost use Rattle.theory_grammar.specs.Spelled.{IsLine, IsOp, IsLowest, lowest};

/// The fraction of a literal is in lowest terms and the same number.
pub fn literals_are_in_lowest_terms()
    ensures { (n d : ℕ) → 0 < d → IsLowest n d (lowest n d) }
{}

/// Tokens spell one line or have one first fault, never both.
pub fn tokens_spell_one_line_or_fail_once()
    ensures line { IsUnambiguous IsLine }
    ensures total { SpellsOrFails IsLine }
    ensures never_both { NeverBoth IsLine }
    ensures fault { HasOneFault IsLine }
{}

/// Tokens spell one edit or have one first fault, never both.
pub fn tokens_spell_one_edit_or_fail_once()
    ensures edit { IsUnambiguous IsOp }
    ensures total { SpellsOrFails IsOp }
    ensures never_both { NeverBoth IsOp }
    ensures fault { HasOneFault IsOp }
{}
