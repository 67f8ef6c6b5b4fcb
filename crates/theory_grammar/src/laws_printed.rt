ghost use Rattle.theory_grammar.specs.Printed.{line_text, op_text};
ghost use Rattle.theory_grammar.specs.RoundTrip.{PrintsBack, PrintsBackAtAnyDepth, TextPrintsBack, TextPrintsBackAtAnyDepth};
ghost use Rattle.theory_grammar.specs.RoundTrip.{LineOpensFew, EditOpensFew, NothingDivides, NothingDividesInEdit};
ghost use Rattle.theory_grammar.specs.Spelled.{IsLine, IsOp};

/// The printed form of a line, an edit or a text that bytes spell spells the same at any depth.
pub fn printed_forms_spell_the_same_at_any_depth()
    ensures line { PrintsBackAtAnyDepth IsLine line_text }
    ensures edit { PrintsBackAtAnyDepth IsOp op_text }
    ensures text { TextPrintsBackAtAnyDepth }
{}

/// A printed form in which at most 32 signs stand open at once spells the same.
pub fn printed_forms_of_few_open_signs_spell_the_same()
    ensures line { PrintsBack IsLine line_text LineOpensFew }
    ensures edit { PrintsBack IsOp op_text EditOpensFew }
    ensures text { TextPrintsBack LineOpensFew }
{}

/// The printed form of what bytes spell spells the same where nothing divides.
pub fn printed_forms_spell_the_same()
    ensures line { PrintsBack IsLine line_text NothingDivides }
    ensures edit { PrintsBack IsOp op_text NothingDividesInEdit }
    ensures text { TextPrintsBack NothingDivides }
{}
