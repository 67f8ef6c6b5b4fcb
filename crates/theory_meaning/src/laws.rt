ghost use Rattle.std.specs.Prelude.{◌≡◌, true, false, pos, [], ◌∷◌, codes, Contains};
ghost use Rattle.theory_meaning.specs.Declarations.{symbols_of_claim};
ghost use Rattle.theory_meaning.specs.Divisors.{divisors_of_claim};
ghost use Rattle.theory_meaning.specs.Fraction.{whole, IsSame};
ghost use Rattle.theory_meaning.specs.Point.{Name, Point, value_at};
ghost use Rattle.theory_meaning.specs.Question.{example_sentence, counter_sentence};
ghost use Rattle.theory_meaning.specs.Slope.{slope_of};
ghost use Rattle.theory_meaning.specs.Tree.{Expr, Claim, symbol, power, quotient, always, never, conjunction, disjunction, implication, equivalence, none};
ghost use Rattle.theory_meaning.specs.Truth.{value_of, truth_of, meets, Meets};
ghost use Rattle.theory_meaning.specs.Worked.{one_half, one_twenty_seventh, the_variable, at_zero, at_one_third, at_one_half, at_one, between_0_and_1, is_one_half, tax_lines, revenue, per_unit, at_a_tax, eight, minus_one};

/// At one half the assumptions of the worked example and its claim are true.
pub fn one_half_is_an_example()
    ensures { meets (example_sentence between_0_and_1 is_one_half) at_one_half ≡ true }
{}

/// At one third the assumptions of the worked example are true and its claim is false.
pub fn one_third_is_a_counterexample()
    ensures counter { meets (counter_sentence between_0_and_1 is_one_half) at_one_third ≡ true }
    ensures assumed { meets between_0_and_1 at_one_third ≡ true }
    ensures claim { truth_of is_one_half at_one_third ≡ false }
{}

/// At each end of the worked example one of its assumptions is false.
pub fn ends_do_not_meet_the_assumptions()
    ensures low { meets between_0_and_1 at_zero ≡ false }
    ensures high { meets between_0_and_1 at_one ≡ false }
{}

/// A name that no entry of the point gives has the value 0.
pub fn missing_name_is_zero()
    ensures { value_of (symbol (codes "y")) at_one_half ≡ whole (pos 0) }
{}

/// The third power of one third is 1/27, and its power to 0 is 1.
pub fn power_is_a_product()
    ensures third { value_of (power the_variable 3) at_one_third ≡ one_twenty_seventh }
    ensures zeroth { value_of (power the_variable 0) at_one_third ≡ whole (pos 1) }
{}

/// An implication is false at every point where only its premise is true.
pub fn implication_fails_only_from_true_to_false()
    ensures both { (p : Point) → truth_of (implication always always) p ≡ true }
    ensures premise { (p : Point) → truth_of (implication always never) p ≡ false }
    ensures conclusion { (p : Point) → truth_of (implication never always) p ≡ true }
    ensures neither { (p : Point) → truth_of (implication never never) p ≡ true }
{}

/// An equivalence is true at every point where both of its sides agree.
pub fn equivalence_is_agreement()
    ensures both { (p : Point) → truth_of (equivalence always always) p ≡ true }
    ensures left { (p : Point) → truth_of (equivalence always never) p ≡ false }
    ensures right { (p : Point) → truth_of (equivalence never always) p ≡ false }
    ensures neither { (p : Point) → truth_of (equivalence never never) p ≡ true }
{}

/// With no member a conjunction is true at every point, and a disjunction false.
pub fn empty_lists_of_claims()
    ensures conjunction { (p : Point) → truth_of (conjunction none) p ≡ true }
    ensures disjunction { (p : Point) → truth_of (disjunction none) p ≡ false }
{}

/// The value of a quotient is the fraction, and 0 where the divisor is 0.
pub fn quotients_are_fractions()
    ensures third { IsSame (value_of (quotient the_variable the_variable) at_one_third)
        (whole (pos 1)) }
    ensures zero { IsSame (value_of (quotient the_variable the_variable) at_zero) (whole (pos 0)) }
{}

/// A point at which a divisor of a claim is 0 meets no list with that claim.
pub fn nothing_is_met_over_zero()
    ensures { (c : Claim) (v : Expr) (p : Point) → Contains (divisors_of_claim c) v →
        IsSame (value_of v p) (whole (pos 0)) → ¬ Meets (c ∷ []) p }
{}

/// Along t, p^2*t has the slope 2*p*d.p*t + p^2, and p/t has (d.p*t - p)/(t*t).
pub fn a_slope_follows_the_rules()
    ensures power { IsSame (slope_of tax_lines (codes "t") revenue at_a_tax) eight }
    ensures quotient { IsSame (slope_of tax_lines (codes "t") per_unit at_a_tax) minus_one }
{}

/// Points that give the same values to the symbols of a claim give it the same truth.
pub fn truth_reads_symbols_alone()
    ensures { (c : Claim) (p q : Point) →
        ((x : Name) → Contains (symbols_of_claim c) x → IsSame (value_at p x) (value_at q x)) →
        truth_of c p ≡ truth_of c q }
{}
