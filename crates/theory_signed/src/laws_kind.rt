ghost use Rattle.std.specs.Prelude.{◌≡◌, ◌≢◌, ℕ, List};
ghost use Rattle.theory_meaning.specs.Point.{Name};
ghost use Rattle.theory_meaning.specs.declared.words.Kind.{Kind};
ghost use Rattle.theory_meaning.specs.declared.words.Kind.TheVariants as kind;
ghost use Rattle.theory_polynomial.specs.PolynomialValue.{Values};
ghost use Rattle.theory_formula.specs.declared.signs.Signs.TheVariants.{Zero, Pos, NotPos, NonZero};
ghost use Rattle.theory_formula.specs.Formula.{Formula, always, never, atom, both, truth_at, EachAtom};
ghost use Rattle.theory_formula.specs.Symbols.{SomeAtom, IsFree, IsProper, IsNamed};
ghost use Rattle.theory_elimination.specs.Simplified.{simplified};
ghost use Rattle.theory_signed.specs.Split.{IsOrdered};
ghost use Rattle.theory_signed.specs.Reduced.{IsReduced};
ghost use Rattle.theory_signed.specs.ByKind.{simplified_for};
ghost use Rattle.theory_signed.specs.WorkedSplits.{x, y, square_times_y, cube, above_a_square, product_less_one, signs_decide, facts_go_down, side_by_side, divided};

/// The simplified form of each kind has the formula's truth at every point.
pub fn each_kind_keeps_truth()
    ensures { (k : Kind) (F : Formula) (p : Values) → IsOrdered F →
        truth_at (simplified_for k F) p ≡ truth_at F p }
{}

/// Its polynomials are canonical with a symbol, and no symbol comes in.
pub fn each_kind_makes_no_symbol()
    ensures proper { (k : Kind) (F : Formula) → IsProper F → IsProper (simplified_for k F) }
    ensures free { (x : ℕ) (k : Kind) (F : Formula) → IsFree x F → IsFree x (simplified_for k F) }
    ensures named { (ns : List Name) (k : Kind) (F : Formula) → EachAtom (IsNamed ns) F →
        EachAtom (IsNamed ns) (simplified_for k F) }
{}

/// It is decided, or no list in it is empty and no member decided: then it has an atom.
pub fn each_kind_is_decided_or_has_an_atom()
    ensures reduced { (k : Kind) (F : Formula) → IsReduced (simplified_for k F) }
    ensures has_atom { (k : Kind) (F : Formula) → simplified_for k F ≢ always →
        simplified_for k F ≢ never → SomeAtom (λ P S. Unit {0}) (simplified_for k F) }
{}

/// By all kinds but one it is the form by the facts alone.
pub fn three_kinds_simplify_by_facts_alone()
    ensures listed { (F : Formula) → simplified_for kind.Listed F ≡ simplified F }
    ensures rare { (F : Formula) → simplified_for kind.Rare F ≡ simplified F }
    ensures unit { (F : Formula) → simplified_for kind.Unit F ≡ simplified F }
{}

/// Worked forms by signs.
pub fn signed_forms()
    ensures above { simplified_for kind.Signed (atom above_a_square Pos) ≡ always }
    ensures not_above { simplified_for kind.Signed (atom above_a_square NotPos) ≡ never }
    ensures divided { simplified_for kind.Signed (divided Zero) ≡
        both (atom x Pos) (atom product_less_one Zero) }
    ensures not_divided { simplified_for kind.Signed (divided NonZero) ≡ never }
    ensures square { simplified_for kind.Signed (both (atom square_times_y Pos) (atom y Pos)) ≡
        both (atom x NonZero) (atom y Pos) }
    ensures no_square { simplified_for kind.Signed
        (both (atom square_times_y Pos) (atom y NotPos)) ≡ never }
    ensures cube { simplified_for kind.Signed (both (atom cube Pos) (atom x Pos)) ≡ atom x Pos }
    ensures no_cube { simplified_for kind.Signed
        (both (atom cube Pos) (atom x NotPos)) ≡ never }
    ensures decides { simplified_for kind.Signed signs_decide ≡ never }
    ensures down { simplified_for kind.Signed facts_go_down ≡
        both (atom x Pos) (atom y Zero) }
    ensures beside { simplified_for kind.Signed side_by_side ≡ side_by_side }
{}
