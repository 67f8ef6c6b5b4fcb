ghost use Rattle.std.specs.Prelude.{◌≡◌, ◌++◌, [], ◌∷◌, codes};
ghost use Rattle.theory_session.specs.Printed.{replies_text};
ghost use Rattle.theory_session.specs.Sizes.{printed};
ghost use Rattle.theory_session.specs.Steps.{Run};
ghost use Rattle.theory_session.specs.WorkedDesk.{text_from, tax_text, edit_script, edit_replies, tax_1, tax_2};
ghost use Rattle.theory_session.specs.WorkedDesk.{keeper_script, keeper_replies, memory_replies, bare_1, bare_2, show_script, show_replies, loose_1, id_script, id_replies};

use crate::laws_desk::Meant;

/// An edit is accepted once; a later one names an old version; its id is used once.
pub fn an_edit_is_accepted_once<D: Meant>()
    ensures run { Run D.meanings [] edit_script edit_replies (tax_1 ∷ tax_2 ∷ []) }
    ensures text { printed tax_1 ≡ tax_text }
    ensures print { replies_text edit_replies ≡ text_from (codes "created tax 1" ∷ codes "edited tax 2"
        ∷ codes "refused Stale 2" ∷ codes "edited tax 2" ∷ codes "refused IdReused 2" ∷ []) }
{}

/// Where the keeper fails or memory is wanting nothing is added, and the edit may be sent again.
pub fn a_failed_edit_is_sent_again<D: Meant>()
    ensures keeper { Run D.meanings [] keeper_script keeper_replies (bare_1 ∷ bare_2 ∷ []) }
    ensures memory { Run D.meanings [] keeper_script memory_replies (bare_1 ∷ bare_2 ∷ []) }
    ensures print { replies_text keeper_replies ≡ text_from (codes "created m 1"
        ∷ codes "refused KeeperFault" ∷ codes "edited m 2" ∷ []) }
{}

/// A version is shown as it is printed; what isn't there is refused.
pub fn a_version_is_shown_as_printed<D: Meant>()
    ensures run { Run D.meanings [] show_script show_replies (loose_1 ∷ []) }
    ensures print { replies_text show_replies ≡ text_from (codes "created m 1" ∷ codes "text of m 1"
        ∷ codes "model m" ∷ codes "var x" ∷ codes "claim C: 2*x + 1 >= 3/2" ∷ codes "end"
        ∷ codes "models 1" ∷ codes "  m 1" ∷ codes "refused UnknownVersion 1"
        ∷ codes "refused UnknownClaim" ∷ codes "refused UnknownName 1" ∷ []) }
{}

/// Ids are those of one model: a creation comes again by its own id and body alone.
pub fn ids_are_used_once_in_a_model<D: Meant>()
    ensures { Run D.meanings (bare_1 ∷ bare_2 ∷ []) id_script id_replies (bare_1 ∷ bare_2 ∷ []) }
{}
