ghost use Rattle.theory_meaning.specs.Answer.{RightHalvesGiveTheRightVerdict, RightHalvesGiveTheRightAnswer, OneVerdictIsRight};

/// Where both halves are right, the verdict of the table is right.
pub fn right_halves_give_the_right_verdict()
    ensures { RightHalvesGiveTheRightVerdict }
{}

/// Where both halves are right for the points of a model, the answer is right.
pub fn right_halves_give_the_right_answer()
    ensures { RightHalvesGiveTheRightAnswer }
{}

/// At most one verdict that leaves nothing undecided is right.
pub fn one_verdict_is_right()
    ensures { OneVerdictIsRight }
{}
