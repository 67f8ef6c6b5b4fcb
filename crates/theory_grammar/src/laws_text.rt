ghost use Rattle.theory_grammar.specs.Texts.{SpellsLines, IsFirstFault, SpellsOps, IsFirstOpsFault, SpellsOneLine, IsFirstLineFault, IsOnce, IsSome, IsNeverBoth};

/// The bytes of a model text spell one list of numbered lines or have one first fault, never both.
pub fn a_text_is_spelled_once_or_fails_once()
    ensures lines { IsOnce SpellsLines }
    ensures fault { IsOnce IsFirstFault }
    ensures total { IsSome SpellsLines IsFirstFault }
    ensures never_both { IsNeverBoth SpellsLines IsFirstFault }
{}

/// The bytes of an edit text spell one list of edits or have one first fault, never both.
pub fn an_edit_text_is_spelled_once_or_fails_once()
    ensures edits { IsOnce SpellsOps }
    ensures fault { IsOnce IsFirstOpsFault }
    ensures total { IsSome SpellsOps IsFirstOpsFault }
    ensures never_both { IsNeverBoth SpellsOps IsFirstOpsFault }
{}

/// Bytes are one line, or blanks and a comment, or have one first fault, never both.
pub fn a_line_is_spelled_once_or_fails_once()
    ensures line { IsOnce SpellsOneLine }
    ensures fault { IsOnce IsFirstLineFault }
    ensures total { IsSome SpellsOneLine IsFirstLineFault }
    ensures never_both { IsNeverBoth SpellsOneLine IsFirstLineFault }
{}
