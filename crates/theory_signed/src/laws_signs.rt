ghost use Rattle.std.specs.Prelude.{◌≡◌, List, [], None, Some, true};
ghost use Rattle.theory_polynomial.specs.Terms.{Monomial};
ghost use Rattle.theory_polynomial.specs.PolynomialValue.{Values};
ghost use Rattle.theory_formula.specs.declared.signs.Signs.TheVariants.{Zero, Pos, NotPos, NotNeg};
ghost use Rattle.theory_formula.specs.Formula.{sign_at};
ghost use Rattle.theory_elimination.specs.Facts.{Facts, AreTrueAt};
ghost use Rattle.theory_signed.specs.SignRules.{may_be};
ghost use Rattle.theory_signed.specs.PossibleSigns.{possible_signs};
ghost use Rattle.theory_signed.specs.WorkedSplits.{x, known, square_times_y, cube, above_a_square, sum};

/// Where the facts are true, the sign of the polynomial is a possible one.
pub fn possible_signs_are_right()
    ensures { (K : Facts) (P : List Monomial) (p : Values) → AreTrueAt p K →
        may_be (possible_signs K P) (sign_at P p) ≡ true }
{}

/// Worked sets of possible signs.
pub fn signs_of_polynomials()
    ensures nothing { possible_signs known [] ≡ Some Zero }
    ensures square { possible_signs [] above_a_square ≡ Some Pos }
    ensures unknown { possible_signs [] cube ≡ None }
    ensures symbol { possible_signs known x ≡ Some NotNeg }
    ensures odd { possible_signs known cube ≡ Some NotNeg }
    ensures product { possible_signs known square_times_y ≡ Some NotPos }
    ensures opposite { possible_signs known sum ≡ None }
{}
