ghost use Rattle.std.specs.Prelude.{◌≡◌, ◌≤◌, List, length, pos, IsTrue};
ghost use Rattle.theory_meaning.specs.Divisors.{divisors_of_expr};
ghost use Rattle.theory_meaning.specs.Fraction.{whole, IsSame, product_of};
ghost use Rattle.theory_meaning.specs.Point.{Name, Point};
ghost use Rattle.theory_meaning.specs.Tree.{Expr, Claim};
ghost use Rattle.theory_meaning.specs.Truth.{value_of, truth_of, are_nonzero, meets};
ghost use Rattle.theory_polynomial.specs.PolynomialValue.{polynomial_at};
ghost use Rattle.theory_polynomial.specs.RationalPolynomial.{quotient_at};
ghost use Rattle.theory_formula.specs.Formula.{Formula, truth_at, EachAtom};
ghost use Rattle.theory_lowering.specs.RationalFunction.{RationalFunction};
ghost use Rattle.theory_lowering.specs.Lowered.{values_of, IsFormOf, IsLowered};
ghost use Rattle.theory_lowering.specs.LoweringLimits.{IsListedExpr, AreListed};
ghost use Rattle.theory_formula.specs.Symbols.{IsProper, IsNamed};
ghost use Rattle.theory_lowering.specs.WrittenClaim.{written_claim};

/// The claim of a formula is true at a point exactly where the formula is at its values.
pub fn written_claims_keep_truth()
    ensures { (ns : List Name) (F : Formula) (p : Point) → EachAtom (IsNamed ns) F →
        truth_of (written_claim ns F) p ≡ truth_at F (values_of ns p) }
{}

/// Where no divisor in an expression is 0, its form has a bottom other than 0, and its value.
pub fn forms_have_the_value()
    ensures bottom { (ns : List Name) (e : Expr) (r : RationalFunction) (p : Point) →
        length ns ≤ 32 → IsListedExpr ns e → IsTrue (are_nonzero (divisors_of_expr e) p) →
        IsFormOf ns e r → ¬ IsSame (polynomial_at r.bottom (values_of ns p)) (whole (pos 0)) }

    // The value times the bottom is the top.
    ensures value { (ns : List Name) (e : Expr) (r : RationalFunction) (p : Point) →
        length ns ≤ 32 → IsListedExpr ns e → IsTrue (are_nonzero (divisors_of_expr e) p) →
        IsFormOf ns e r →
        IsSame (product_of (value_of e p) (polynomial_at r.bottom (values_of ns p)))
        (quotient_at r.top (values_of ns p)) }
{}

/// The lowered formula is true at the values of the names exactly where the claims are met.
pub fn lowered_formulas_keep_truth()
    ensures { (ns : List Name) (cs : List Claim) (F : Formula) (p : Point) →
        length ns ≤ 32 → AreListed ns cs → IsLowered ns cs F →
        truth_at F (values_of ns p) ≡ meets cs p }
{}

/// An expression is one rational function over the names, and a list of claims one lowered formula.
pub fn lowered_formulas_are_single()
    ensures form { (ns : List Name) (e : Expr) (q r : RationalFunction) → IsFormOf ns e q →
        IsFormOf ns e r → q ≡ r }
    ensures formula { (ns : List Name) (cs : List Claim) (F G : Formula) → IsLowered ns cs F →
        IsLowered ns cs G → F ≡ G }
{}

/// Each atom of a lowered formula is on a canonical polynomial in which some symbol occurs.
pub fn lowered_formulas_are_proper()
    ensures { (ns : List Name) (cs : List Claim) (F : Formula) → IsLowered ns cs F → IsProper F }
{}

/// Where the names of the claims are listed, each symbol of the lowered formula is a listed one.
pub fn lowered_formulas_are_named()
    ensures { (ns : List Name) (cs : List Claim) (F : Formula) → AreListed ns cs →
        IsLowered ns cs F → EachAtom (IsNamed ns) F }
{}
