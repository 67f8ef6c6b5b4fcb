ghost use Rattle.std.specs.Prelude.{◌≡◌, [], ◌∷◌, codes};
ghost use Rattle.theory_grammar.specs.declared.words.LineFaultKind.TheVariants.{Unexpected, ZeroBelow};
ghost use Rattle.theory_grammar.specs.Printed.{expr_text};
ghost use Rattle.theory_grammar.specs.Token.{number};
ghost use Rattle.theory_grammar.specs.Worked.{AreRead, FailBehind, x_, y_, over, times, minus, power, open_, close, the_x, the_y, the, literal};
ghost use Rattle.theory_meaning.specs.Tree.{quotient, product, opposite};
ghost use Rattle.theory_meaning.specs.Tree as plain;

/// Quotients group to the left; a number, `/` and a number where a factor may begin are a literal.
pub fn quotients_are_read_as_written()
    // `1/2/3` is the literal 1/2 over 3, `x/2/3` is x/2 over 3, `2/3/x` is the literal 2/3 over x
    ensures literal_over_number { AreRead (number 1 ∷ over ∷ number 2 ∷ over ∷ number 3 ∷ [])
        (quotient (literal 1 2) (the 3)) }
    ensures name_over_numbers { AreRead (x_ ∷ over ∷ number 2 ∷ over ∷ number 3 ∷ [])
        (quotient (quotient the_x (the 2)) (the 3)) }
    ensures literal_over_name { AreRead (number 2 ∷ over ∷ number 3 ∷ over ∷ x_ ∷ [])
        (quotient (literal 2 3) the_x) }
    ensures names { AreRead (x_ ∷ over ∷ y_ ∷ over ∷ x_ ∷ [])
        (quotient (quotient the_x the_y) the_x) }
    // `2*3/4` is 2 times the literal 3/4, `2*3/x` is 2*3 over x, `x/2*3/4` is x/2 times 3/4
    ensures times_literal { AreRead (number 2 ∷ times ∷ number 3 ∷ over ∷ number 4 ∷ [])
        (product (the 2) (literal 3 4)) }
    ensures product_over_name { AreRead (number 2 ∷ times ∷ number 3 ∷ over ∷ x_ ∷ [])
        (quotient (product (the 2) (the 3)) the_x) }
    ensures quotient_times_literal { AreRead (x_ ∷ over ∷ number 2 ∷ times ∷ number 3 ∷ over
        ∷ number 4 ∷ [])
        (product (quotient the_x (the 2)) (literal 3 4)) }
    // `x/3^2` has the divisor 3^2, `2^3/4^2` the divisor 4^2
    ensures divisor_with_power { AreRead (x_ ∷ over ∷ number 3 ∷ power ∷ number 2 ∷ [])
        (quotient the_x (plain.power (the 3) 2)) }
    ensures power_over_power { AreRead (number 2 ∷ power ∷ number 3 ∷ over ∷ number 4 ∷ power
        ∷ number 2 ∷ [])
        (quotient (plain.power (the 2) 3) (plain.power (the 4) 2)) }
    // `-2/3` is the opposite of the literal, `-2/x` is the opposite of 2 over x
    ensures opposite_of_literal { AreRead (minus ∷ number 2 ∷ over ∷ number 3 ∷ [])
        (opposite (literal 2 3)) }
    ensures opposite_over_name { AreRead (minus ∷ number 2 ∷ over ∷ x_ ∷ [])
        (quotient (opposite (the 2)) the_x) }
    // `2/(3)` and `(2)/3` are the quotient of 2 by 3
    ensures divisor_in_brackets { AreRead (number 2 ∷ over ∷ open_ ∷ number 3 ∷ close ∷ [])
        (quotient (the 2) (the 3)) }
    ensures number_in_brackets { AreRead (open_ ∷ number 2 ∷ close ∷ over ∷ number 3 ∷ [])
        (quotient (the 2) (the 3)) }
    // `x/0` and `x/2/0` are read, since they hold no literal over 0
    ensures over_zero { AreRead (x_ ∷ over ∷ number 0 ∷ []) (quotient the_x (the 0)) }
    ensures twice_over_zero { AreRead (x_ ∷ over ∷ number 2 ∷ over ∷ number 0 ∷ [])
        (quotient (quotient the_x (the 2)) (the 0)) }
{}

/// A literal isn't followed by `^`, a divisor begins with no minus, and no literal is over 0.
pub fn misread_quotients_are_refused()
    // `3/4^2` at `^`, `x/-y` at `-`
    ensures power_of_literal { FailBehind 3 Unexpected
        (number 3 ∷ over ∷ number 4 ∷ power ∷ number 2 ∷ []) }
    ensures over_minus { FailBehind 2 Unexpected (x_ ∷ over ∷ minus ∷ y_ ∷ []) }
    // `2/0` and `x*2/0` at the 0
    ensures literal_over_zero { FailBehind 2 ZeroBelow (number 2 ∷ over ∷ number 0 ∷ []) }
    ensures factor_over_zero { FailBehind 4 ZeroBelow
        (x_ ∷ times ∷ number 2 ∷ over ∷ number 0 ∷ []) }
{}

/// A divisor is printed in brackets where it stands as no power or begins with a digit.
pub fn quotients_are_printed_as_written()
    ensures digit { expr_text (quotient (the 2) (the 3)) ≡ codes "2/(3)" }
    ensures power_of_digit { expr_text (quotient the_x (plain.power (the 3) 2)) ≡ codes "x/(3^2)" }
    ensures left { expr_text (quotient (quotient the_x the_y) the_x) ≡ codes "x/y/x" }
    ensures right { expr_text (quotient the_x (quotient the_y the_x)) ≡ codes "x/(y/x)" }
    ensures minus { expr_text (quotient the_x (opposite the_y)) ≡ codes "x/(-y)" }
    ensures product { expr_text (product the_x (quotient the_y the_x)) ≡ codes "x*(y/x)" }
{}
