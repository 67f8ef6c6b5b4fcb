ghost use Rattle.std.specs.Prelude.{◌≡◌, ℕ};
ghost use Rattle.theory_polynomial.specs.PolynomialValue.{Values};
ghost use Rattle.theory_formula.specs.Formula.{Formula, truth_at};
ghost use Rattle.theory_formula.specs.Symbols.{IsFree, IsProper};
ghost use Rattle.theory_elimination.specs.Facts.{Facts, AreTrueAt};
ghost use Rattle.theory_elimination.specs.Simplified.{simplified_by};
ghost use Rattle.theory_signed.specs.Signed.{by_known_and_signs};

/// Where the facts are true, the simplified form by signs is true exactly where the formula is.
pub fn simplification_by_signs_keeps_truth()
    ensures { (K : Facts) (F : Formula) (p : Values) → AreTrueAt p K →
        truth_at (simplified_by by_known_and_signs K F) p ≡ truth_at F p }
{}

/// Its polynomials are among those of the formula.
pub fn simplification_by_signs_makes_no_polynomial()
    ensures proper { (K : Facts) (F : Formula) → IsProper F →
        IsProper (simplified_by by_known_and_signs K F) }
    ensures free { (x : ℕ) (K : Facts) (F : Formula) → IsFree x F →
        IsFree x (simplified_by by_known_and_signs K F) }
{}
