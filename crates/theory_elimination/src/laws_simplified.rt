ghost use Rattle.std.specs.Prelude.{◌≡◌, ℕ, Bool, List, IsTrue};
ghost use Rattle.theory_meaning.specs.Point.{Name};
ghost use Rattle.theory_polynomial.specs.Polynomial.{Monomial};
ghost use Rattle.theory_polynomial.specs.PolynomialValue.{Values};
ghost use Rattle.theory_formula.specs.Formula.{Formula, never, atom, conjunction, disjunction, none, always, truth_at, EachAtom, both, either};
ghost use Rattle.theory_formula.specs.declared.signs.Signs.TheVariants.{Neg, Zero};
ghost use Rattle.theory_formula.specs.Symbols.{IsFree, IsProper, IsNamed};
ghost use Rattle.theory_elimination.specs.Elimination.{IsLinear};
ghost use Rattle.theory_elimination.specs.Facts.{Facts, AreTrueAt};
ghost use Rattle.theory_elimination.specs.Simplified.{simplified, simplified_under};
ghost use Rattle.theory_elimination.specs.WorkedForms.{x, y, met_members, spliced_member, spliced_once, joined_members, repeated_members};

/// Wherever the facts are true, the simplified form is true exactly where the formula is.
pub fn simplification_keeps_truth()
    ensures { (K : Facts) (F : Formula) (p : Values) → AreTrueAt p K →
        truth_at (simplified_under K F) p ≡ truth_at F p }
{}

/// Simplification makes no polynomial: what holds of those of the formula holds of all that stay.
pub fn simplification_makes_no_polynomial()
    ensures test { (test : List Monomial → Bool) (K : Facts) (F : Formula) →
        EachAtom (λ P S. IsTrue (test P)) F →
        EachAtom (λ P S. IsTrue (test P)) (simplified_under K F) }
    ensures proper { (K : Facts) (F : Formula) → IsProper F → IsProper (simplified_under K F) }
    ensures linear { (x : ℕ) (K : Facts) (F : Formula) → IsLinear x F →
        IsLinear x (simplified_under K F) }
    ensures free { (x : ℕ) (K : Facts) (F : Formula) → IsFree x F →
        IsFree x (simplified_under K F) }
    ensures named { (ns : List Name) (K : Facts) (F : Formula) → EachAtom (IsNamed ns) F →
        EachAtom (IsNamed ns) (simplified_under K F) }
{}

/// Worked forms; the third shows that a second call may go on.
pub fn simplified_forms()
    ensures met { simplified met_members ≡ both (atom x Zero) (atom y Zero) }
    ensures spliced { simplified spliced_member ≡ spliced_once }
    ensures again { simplified spliced_once ≡ atom x Neg }
    ensures joined { simplified joined_members ≡ always }
    ensures once { simplified repeated_members ≡ either (atom x Zero) (atom y Zero) }
    ensures empty { simplified (conjunction none) ≡ always }
    ensures no_choice { simplified (disjunction none) ≡ never }
{}
