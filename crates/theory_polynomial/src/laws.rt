ghost use Rattle.std.specs.Prelude.{◌≡◌, ◌↔◌, ◌<◌, Bool, ℕ, ℤ, pos, negsuc, neg_ℤ, ◌+ℤ◌, ◌*ℤ◌, List, true, false};
ghost use Rattle.theory_meaning.specs.Fraction.{Fraction, whole, IsSame, HasSign, sum_of as fraction_sum, difference_of as fraction_difference, product_of as fraction_product, opposite_sign};
ghost use Rattle.theory_meaning.specs.declared.words.Sign.{Sign};
ghost use Rattle.theory_polynomial.specs.Polynomial.{Monomial, coefficient_at, AreSame, IsPolynomial, IsPrimitiveOf, IsCanonicalOf, IsFreeOf, IsSplit, scaled, sum_of, difference_of, product_of, cross_of, constant_of, symbol_of};
ghost use Rattle.theory_polynomial.specs.RationalPolynomial.{Quotient, IsLowestOf};
ghost use Rattle.theory_polynomial.specs.PolynomialValue.{Values, symbol_at, polynomial_at, HasSignAt, HaveSameSign, GivesValue, IsRestriction};

/// A list in the fixed order, without zeros, is known by its coefficients.
pub fn polynomial_is_unique()
    ensures { (ts us : List Monomial) → IsPolynomial ts → IsPolynomial us → AreSame ts us →
        ts ≡ us }
{}

/// Coefficients add up, take the difference and are multiplied, exponent list by exponent list.
pub fn coefficients_of_operations()
    ensures sum { (ts us : List Monomial) (e : List ℕ) →
        coefficient_at (sum_of ts us) e ≡ coefficient_at ts e +ℤ coefficient_at us e }
    ensures difference { (ts us : List Monomial) (e : List ℕ) →
        coefficient_at (difference_of ts us) e
        ≡ coefficient_at ts e +ℤ neg_ℤ (coefficient_at us e) }
    ensures multiple { (n : ℤ) (ts : List Monomial) (e : List ℕ) →
        coefficient_at (scaled n ts) e ≡ n *ℤ coefficient_at ts e }
{}

/// Sums of terms with the same coefficients have the same value at every point.
pub fn value_reads_coefficients()
    ensures value { (ts us : List Monomial) (p : Values) → AreSame ts us →
        IsSame (polynomial_at ts p) (polynomial_at us p) }
    ensures sign { (ts us : List Monomial) → AreSame ts us → HaveSameSign ts us }
{}

/// The value of a sum is the sum of the values, and so on.
pub fn values_of_operations()
    ensures sum { (ts us : List Monomial) (p : Values) →
        IsSame (polynomial_at (sum_of ts us) p)
        (fraction_sum (polynomial_at ts p) (polynomial_at us p)) }
    ensures difference { (ts us : List Monomial) (p : Values) →
        IsSame (polynomial_at (difference_of ts us) p)
        (fraction_difference (polynomial_at ts p) (polynomial_at us p)) }
    ensures product { (ts us : List Monomial) (p : Values) →
        IsSame (polynomial_at (product_of ts us) p)
        (fraction_product (polynomial_at ts p) (polynomial_at us p)) }
    ensures multiple { (n : ℤ) (ts : List Monomial) (p : Values) →
        IsSame (polynomial_at (scaled n ts) p) (fraction_product (whole n) (polynomial_at ts p)) }
{}

/// A division by the content gives one polynomial, with the same sign at every point.
pub fn primitive_keeps_signs()
    ensures unique { (ts r s : List Monomial) → IsPrimitiveOf ts r → IsPrimitiveOf ts s → r ≡ s }
    ensures sign { (ts r : List Monomial) → IsPrimitiveOf ts r → HaveSameSign r ts }
{}

/// The canonical form keeps the sign at every point, or turns it at every point, as it says.
pub fn canonical_keeps_or_turns_signs()
    ensures kept { (ts r : List Monomial) → IsCanonicalOf ts false r → HaveSameSign r ts }
    ensures turned { (ts r : List Monomial) (p : Values) (s : Sign) → IsCanonicalOf ts true r →
        HasSignAt p r s ↔ HasSignAt p ts (opposite_sign s) }
{}

/// A sum of terms has one canonical form, turned or not, and a quotient one lowest form.
pub fn canonical_and_lowest_forms_are_single()
    ensures canonical { (ts r s : List Monomial) (b c : Bool) → IsCanonicalOf ts b r →
        IsCanonicalOf ts c s → (b ≡ c) × (r ≡ s) }
    ensures lowest { (q r s : Quotient) → 0 < q.below → IsLowestOf q r → IsLowestOf q s → r ≡ s }
{}

/// What is left of a difference of products has the sign of that difference of the values.
pub fn cross_has_the_sign()
    ensures { (a b2 a2 b r : List Monomial) (p : Values) (s : Sign) →
        IsPrimitiveOf (cross_of a b2 a2 b) r →
        HasSignAt p r s ↔
        HasSign (fraction_difference (fraction_product (polynomial_at a p) (polynomial_at b2 p))
        (fraction_product (polynomial_at a2 p) (polynomial_at b p))) s }
{}

/// A restriction is free of the symbol, and has the polynomial's sign at that value of it.
pub fn restriction_keeps_signs()
    ensures free { (x : ℕ) (q : Fraction) (ts r : List Monomial) → IsRestriction x q ts r →
        IsFreeOf x r }
    ensures sign { (x : ℕ) (q : Fraction) (ts r : List Monomial) (p : Values) (s : Sign) →
        IsRestriction x q ts r → GivesValue x q p →
        HasSignAt p r s ↔ HasSignAt p ts s }
{}

/// A polynomial that is split has the value of its slope times the symbol's, plus its base's.
pub fn split_has_the_value()
    ensures { (x : ℕ) (ts a b : List Monomial) (p : Values) → IsSplit x ts a b →
        IsSame (polynomial_at ts p) (fraction_sum
        (fraction_product (polynomial_at a p) (polynomial_at (symbol_of x) p))
        (polynomial_at b p)) }
{}
