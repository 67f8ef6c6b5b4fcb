ghost use Rattle.std.specs.Prelude.{◌≡◌, ◌≤◌, List, length};
ghost use Rattle.theory_meaning.specs.declared.words.Kind.{Kind};
ghost use Rattle.theory_meaning.specs.Deciding.{IsHalf, IsRegion};
ghost use Rattle.theory_meaning.specs.Half.{Half, IsRightHalf};
ghost use Rattle.theory_meaning.specs.Point.{Name, AreDistinct};
ghost use Rattle.theory_meaning.specs.Region.{Region, known, AreAmong, HoldsOnly, IsRightFor};
ghost use Rattle.theory_meaning.specs.Tree.{Claim};
ghost use Rattle.theory_lowering.specs.LoweringLimits.{AreListed};
ghost use Rattle.theory_decision.specs.Answers.{IsWrittenHalf, IsWrittenRegion};
ghost use Rattle.theory_decision.specs.Engine.{engine};

/// What is written of a half is true of all points.
pub fn a_written_half_is_right()
    ensures { (kind : Kind) (ns : List Name) (cs : List Claim) (h : Half) → length ns ≤ 32 →
        AreListed ns cs → AreDistinct ns → IsWrittenHalf kind ns cs h → IsRightHalf cs h }
{}

/// An engine may answer it.
pub fn an_engine_may_answer_a_written_half()
    ensures { (kind : Kind) (ns : List Name) (cs : List Claim) (h : Half) → length ns ≤ 32 →
        AreListed ns cs → AreDistinct ns → IsWrittenHalf kind ns cs h →
        IsHalf engine ns cs kind h }
{}

/// A known condition is true exactly where no point with these values meets the claims.
pub fn a_known_condition_is_right()
    ensures { (kind : Kind) (ns : List Name) (cs : List Claim) (on : List Name) (C : Claim) →
        length ns ≤ 32 → AreListed ns cs → AreDistinct ns → AreAmong on ns →
        IsWrittenRegion kind ns cs on (known C) → IsRightFor cs on C }
{}

/// It holds these names alone.
pub fn a_known_condition_holds_its_names()
    ensures { (kind : Kind) (ns : List Name) (cs : List Claim) (on : List Name) (C : Claim) →
        IsWrittenRegion kind ns cs on (known C) → HoldsOnly on C }
{}

/// An engine may answer a written condition.
pub fn an_engine_may_answer_a_written_region()
    ensures { (kind : Kind) (ns : List Name) (cs : List Claim) (on : List Name) (r : Region) →
        length ns ≤ 32 → AreListed ns cs → AreDistinct ns → AreAmong on ns →
        IsWrittenRegion kind ns cs on r → IsRegion engine ns cs on kind r }
{}

/// Claims have one written half, and one written condition on names.
pub fn written_answers_are_single()
    ensures half { (kind : Kind) (ns : List Name) (cs : List Claim) (h g : Half) →
        IsWrittenHalf kind ns cs h → IsWrittenHalf kind ns cs g → h ≡ g }
    ensures region { (kind : Kind) (ns : List Name) (cs : List Claim) (on : List Name)
        (r q : Region) → IsWrittenRegion kind ns cs on r → IsWrittenRegion kind ns cs on q →
        r ≡ q }
{}
