ghost use Rattle.theory_meaning.specs.Deciding.{Meanings};
ghost use Rattle.theory_session.specs.DeskLaws.{StepsGrowAtTheEnd, RunsKeepAcceptance, RefusalsAddNothing};
ghost use Rattle.theory_session.specs.DeskLaws.{RepeatsGetTheirReply, EachCommandHasAStep, NoCommandHasTwoSteps, RowsDetermineTheDesk};
ghost use Rattle.theory_session.specs.DeskLaws.{QuestionsAddNothing, RefusedQuestionsHaveOneReply, DesksHaveNoBadRow, OneRowIsTheFirstBad};

use theory_grammar::{
    a_text_is_spelled_once_or_fails_once, an_edit_text_is_spelled_once_or_fails_once,
};

/// What a decider may answer, for laws over all deciders.
pub trait Meant {
    ghost meanings: { Meanings };
}

/// Accepted versions stay accepted, and new ones stand behind them.
pub fn accepted_versions_stay_accepted<D: Meant>()
    ensures step { StepsGrowAtTheEnd D.meanings }
    ensures run { RunsKeepAcceptance D.meanings }
    ensures refused { RefusalsAddNothing D.meanings }
{}

/// A change that was accepted gets its reply again, and adds nothing.
pub fn repeats_get_their_reply<D: Meant>()
    ensures { RepeatsGetTheirReply D.meanings }
{
    a_text_is_spelled_once_or_fails_once();
}

/// Each command but a question has one step, want of memory and a keeper's fault aside.
pub fn each_command_has_one_step<D: Meant>()
    ensures some { EachCommandHasAStep D.meanings }
    ensures one { NoCommandHasTwoSteps D.meanings }
{
    a_text_is_spelled_once_or_fails_once();
    an_edit_text_is_spelled_once_or_fails_once();
}

/// A question adds nothing; one that its checks refuse has one reply.
pub fn questions_add_nothing<D: Meant>()
    ensures same { QuestionsAddNothing D.meanings }
    ensures refused { RefusedQuestionsHaveOneReply D.meanings }
{}

/// Rows are those of at most one list of versions, or have at most one first bad row; never both.
pub fn rows_determine_the_desk()
    ensures desk { RowsDetermineTheDesk }
    ensures never_both { DesksHaveNoBadRow }
    ensures bad { OneRowIsTheFirstBad }
{
    a_text_is_spelled_once_or_fails_once();
    an_edit_text_is_spelled_once_or_fails_once();
}
