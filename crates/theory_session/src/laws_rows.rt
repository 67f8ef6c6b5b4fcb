ghost use Rattle.std.specs.Prelude.{[], ◌∷◌};
ghost use Rattle.theory_session.specs.Accepted.{IsDeskOf, IsFirstBadRow};
ghost use Rattle.theory_session.specs.CheckRun.{ChecksAreRuns};
ghost use Rattle.theory_session.specs.WorkedRows.{ratio_entry, second_row};
ghost use Rattle.theory_session.specs.WorkedRows.{ThousandModelsFit, NoModelMoreFits, TenThousandVersionsFit, NoVersionMoreFits};

use crate::laws_desk::Meant;
use theory_grammar::a_text_is_spelled_once_or_fails_once;

/// In a row of format 1 nothing divides, and there is no third format.
pub fn a_row_has_one_of_two_formats()
    ensures first { IsFirstBadRow ((ratio_entry 1).row ∷ []) 1 }
    ensures second { IsDeskOf ((ratio_entry 2).row ∷ []) (ratio_entry 2 ∷ []) }
    ensures third { IsFirstBadRow ((ratio_entry 3).row ∷ []) 1 }
{
    a_text_is_spelled_once_or_fails_once();
}

/// No row comes before its base.
pub fn no_row_comes_before_its_base()
    ensures { IsFirstBadRow (second_row ∷ []) 1 }
{}

/// The 1,000th model and the 10,000th version of a model are accepted, and no more.
pub fn a_desk_is_full_at_its_limits<D: Meant>()
    ensures models { ThousandModelsFit D.meanings }
    ensures no_more_models { NoModelMoreFits D.meanings }
    ensures versions { TenThousandVersionsFit D.meanings }
    ensures no_more_versions { NoVersionMoreFits D.meanings }
{}

/// The replies of a check are a run of one creation and a question for each claim.
pub fn a_check_is_a_run<D: Meant>()
    ensures { ChecksAreRuns D.meanings }
{}
