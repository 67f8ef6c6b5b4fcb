ghost use Rattle.std.specs.Prelude.{◌≡◌, ◌⊎◌, ℕ, ℤ, pos, true, false};
ghost use Rattle.theory_meaning.specs.Fraction.{Fraction, whole, IsSame, IsBelow, same, below, sum_of, difference_of, product_of, opposite_of, quotient_of, power_of};
ghost use Rattle.theory_meaning.specs.Between.{IsBetween};
ghost use Rattle.theory_meaning.specs.Sameness.{RespectsSameness, over};

/// Fractions that are the same number form classes.
pub fn sameness_is_an_equivalence()
    ensures reflexive { (q : Fraction) → IsSame q q }
    ensures symmetric { (q r : Fraction) → IsSame q r → IsSame r q }
    ensures transitive { (q r s : Fraction) → IsSame q r → IsSame r s → IsSame q s }

    // One half is two fourths, and isn't one third.
    ensures halves { same (over (pos 1) 1) (over (pos 2) 3) ≡ true }
    ensures thirds { same (over (pos 1) 1) (over (pos 1) 2) ≡ false }
{}

/// Exactly one of below, same and above is true of two fractions.
pub fn order_is_total()
    ensures transitive { (q r s : Fraction) → IsBelow q r → IsBelow r s → IsBelow q s }
    ensures irreflexive { (q : Fraction) → ¬ IsBelow q q }
    ensures total { (q r : Fraction) → IsBelow q r ⊎ (IsSame q r ⊎ IsBelow r q) }
    ensures apart { (q r : Fraction) → IsBelow q r → ¬ IsSame q r }
    ensures one_way { (q r : Fraction) → IsBelow q r → ¬ IsBelow r q }

    // One third is below one half.
    ensures thirds { below (over (pos 1) 2) (over (pos 1) 1) ≡ true }
{}

/// Order and sameness read the number alone, on either side.
pub fn order_respects_sameness()
    ensures left { (q p r : Fraction) → IsSame q p → IsBelow q r → IsBelow p r }
    ensures right { (q p r : Fraction) → IsSame q p → IsBelow r q → IsBelow r p }

    // The tests answer alike.
    ensures below_left { (q p r : Fraction) → IsSame q p → below q r ≡ below p r }
    ensures below_right { (q p r : Fraction) → IsSame q p → below r q ≡ below r p }
    ensures same_left { (q p r : Fraction) → IsSame q p → same q r ≡ same p r }
    ensures same_right { (q p r : Fraction) → IsSame q p → same r q ≡ same r p }
{}

/// Between two fractions, below one and above one there is another.
pub fn order_has_no_gaps()
    ensures dense { (q r : Fraction) → IsBelow q r → (m : Fraction) × IsBetween q r m }
    ensures below { (q : Fraction) → (n : ℤ) × IsBelow (whole n) q }
    ensures above { (q : Fraction) → (n : ℤ) × IsBelow q (whole n) }
{}

/// The operations on fractions read the numbers alone.
pub fn operations_respect_sameness()
    ensures sum { RespectsSameness sum_of }
    ensures difference { RespectsSameness difference_of }
    ensures product { RespectsSameness product_of }
    ensures quotient { RespectsSameness quotient_of }
    ensures opposite { (q p : Fraction) → IsSame q p → IsSame (opposite_of q) (opposite_of p) }
    ensures power { (q p : Fraction) (k : ℕ) → IsSame q p → IsSame (power_of q k) (power_of p k) }

    // One half, written as two fourths, and one third are five sixths.
    ensures halves { same (sum_of (over (pos 2) 3) (over (pos 1) 2)) (over (pos 5) 5) ≡ true }
{}
