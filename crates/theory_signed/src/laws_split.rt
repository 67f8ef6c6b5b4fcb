ghost use Rattle.std.specs.Prelude.{◌≡◌, ℕ, List, [], ◌∷◌};
ghost use Rattle.theory_meaning.specs.Point.{Name};
ghost use Rattle.theory_polynomial.specs.Polynomial.{Monomial, IsCanonical};
ghost use Rattle.theory_polynomial.specs.PolynomialValue.{Values};
ghost use Rattle.theory_formula.specs.declared.signs.Signs.{Signs};
ghost use Rattle.theory_formula.specs.declared.signs.Signs.TheVariants.{Neg, Zero, Pos, NotPos, NonZero, NotNeg};
ghost use Rattle.theory_formula.specs.Formula.{Formula, always, atom, both, either, truth_at, EachAtom};
ghost use Rattle.theory_formula.specs.SignCondition.{IsAtomOf};
ghost use Rattle.theory_formula.specs.Symbols.{IsFree, IsProper, IsNamed};
ghost use Rattle.theory_signed.specs.Split.{condition_on, split, IsOrdered};
ghost use Rattle.theory_signed.specs.WorkedSplits.{x, y, all, by_sign_of_x, square, square_times_y, cube, above_a_square, product_less_one, times_x, times_square, times_cube, sum, two_squares};

/// A split formula is true exactly where the formula is.
pub fn splitting_keeps_truth()
    ensures { (F : Formula) (p : Values) → IsOrdered F → truth_at (split F) p ≡ truth_at F p }
{}

/// The polynomials of a split formula are canonical with a symbol, and no symbol comes in.
pub fn splitting_makes_no_symbol()
    ensures proper { (F : Formula) → IsProper F → IsProper (split F) }
    ensures free { (x : ℕ) (F : Formula) → IsFree x F → IsFree x (split F) }
    ensures named { (ns : List Name) (F : Formula) → EachAtom (IsNamed ns) F →
        EachAtom (IsNamed ns) (split F) }
{}

/// The condition on a canonical polynomial, or on the number 1, is its atom.
pub fn conditions_are_atoms()
    ensures { (P : List Monomial) (S : Signs) → IsCanonical P → IsAtomOf P S (condition_on P S) }
{}

/// Worked splits.
pub fn split_forms()
    ensures square { split (atom square_times_y Neg) ≡ both (atom x NonZero) (atom y Neg) }
    ensures square_or_zero { split (atom square_times_y NotPos) ≡
        either (atom x Zero) (atom y NotPos) }
    ensures cube { split (atom cube Pos) ≡ atom x Pos }
    ensures squares { split (atom two_squares NonZero) ≡
        all (atom x NonZero ∷ atom y NonZero ∷ atom sum NonZero ∷ []) }
    ensures by_sign { split (atom times_x Neg) ≡ by_sign_of_x product_less_one Neg Pos [] }
    ensures by_sign_or_zero { split (atom times_x NotNeg) ≡
        by_sign_of_x product_less_one NotNeg NotPos (atom x Zero ∷ []) }
    ensures cube_in_front { split (atom times_cube NotPos) ≡
        by_sign_of_x product_less_one NotPos NotNeg (atom x Zero ∷ []) }
    ensures square_in_front { split (atom times_square Zero) ≡
        either (atom x Zero) (atom product_less_one Zero) }
    ensures square_alone { split (atom square Pos) ≡ both (atom x NonZero) always }
    ensures unsplit { split (atom above_a_square Pos) ≡ atom above_a_square Pos }
{}
