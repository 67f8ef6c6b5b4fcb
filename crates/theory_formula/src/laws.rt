ghost use Rattle.std.specs.Prelude.{List, ◌≡◌, Bool, false, true, not, ◌&&◌, ◌||◌, IsTrue, MatchOption};
ghost use Rattle.theory_meaning.specs.Fraction.{Fraction, difference_of, HasSign, opposite_sign};
ghost use Rattle.theory_meaning.specs.Truth.{holds};
ghost use Rattle.theory_meaning.specs.declared.words.Rel.{Rel};
ghost use Rattle.theory_meaning.specs.declared.words.Sign.{Sign};
ghost use Rattle.theory_formula.specs.declared.signs.Signs.{Signs};
ghost use Rattle.theory_polynomial.specs.PolynomialValue.{Values};
ghost use Rattle.theory_polynomial.specs.Polynomial.{Monomial, IsPolynomial};
ghost use Rattle.theory_formula.specs.SignCondition.{IsAtomOf};
ghost use Rattle.theory_formula.specs.Symbols.{AgreeOnSymbols};
ghost use Rattle.theory_formula.specs.Signs.{has, is_zero, mirror, complement, without_zero, meet, join, signs_of, sign_of};
ghost use Rattle.theory_formula.specs.Formula.{Formula, Reading, truth_by, truth_at, sign_at, EachAtom, StaysTrue, negated};

/// The sign of a fraction is the one sign that it has.
pub fn each_fraction_has_one_sign()
    ensures own { (q : Fraction) → HasSign q (sign_of q) }
    ensures only { (q : Fraction) (s : Sign) → HasSign q s → sign_of q ≡ s }
{}

/// Two sets with the same signs are the same set.
pub fn a_set_is_known_by_its_signs()
    ensures { (S T : Signs) → ((s : Sign) → has S s ≡ has T s) → S ≡ T }
{}

/// The mirror has the opposites, and the complement the other signs.
pub fn mirror_and_complement_have_their_signs()
    ensures mirror { (S : Signs) (s : Sign) → has (mirror S) s ≡ has S (opposite_sign s) }
    ensures complement { (S : Signs) (s : Sign) → has (complement S) s ≡ not (has S s) }
{}

/// Without zero, met and joined: the stated signs, and None exactly where these are none or all.
pub fn parts_of_sets_have_their_signs()
    ensures without_zero { (S : Signs) → MatchOption (without_zero S)
        ((s : Sign) → has S s && not (is_zero s) ≡ false)
        (λ R. (s : Sign) → has R s ≡ has S s && not (is_zero s)) }
    ensures meet { (S T : Signs) → MatchOption (meet S T)
        ((s : Sign) → has S s && has T s ≡ false)
        (λ R. (s : Sign) → has R s ≡ has S s && has T s) }
    ensures join { (S T : Signs) → MatchOption (join S T)
        ((s : Sign) → has S s || has T s ≡ true)
        (λ R. (s : Sign) → has R s ≡ has S s || has T s) }
{}

/// Two numbers are in a relation exactly where the sign of their difference is in its set.
pub fn relations_are_signs_of_differences()
    ensures { (rel : Rel) (q r : Fraction) →
        has (signs_of rel) (sign_of (difference_of q r)) ≡ holds rel q r }
{}

/// The condition on a polynomial is true exactly where the set has the sign of the polynomial.
pub fn conditions_have_the_truth_of_the_sign()
    ensures { (P : List Monomial) (S : Signs) (F : Formula) (p : Values) →
        IsPolynomial P → IsAtomOf P S F → truth_at F p ≡ has S (sign_at P p) }
{}

/// A formula whose true atoms stay true stays true.
pub fn true_atoms_keep_a_formula_true()
    ensures { (F : Formula) (r s : Reading) → EachAtom (StaysTrue r s) F →
        IsTrue (truth_by r F) → IsTrue (truth_by s F) }
{}

/// Negation turns the truth at every point.
pub fn negation_turns_truth()
    ensures { (F : Formula) (p : Values) → truth_at (negated F) p ≡ not (truth_at F p) }
{}

/// The condition on a sum of terms is one formula.
pub fn conditions_are_single()
    ensures { (P : List Monomial) (S : Signs) (F G : Formula) → IsAtomOf P S F →
        IsAtomOf P S G → F ≡ G }
{}

/// At points that agree on the symbols of a formula it has the same truth.
pub fn truth_reads_the_symbols_that_occur()
    ensures { (F : Formula) (p q : Values) → AgreeOnSymbols F p q → truth_at F p ≡ truth_at F q }
{}
