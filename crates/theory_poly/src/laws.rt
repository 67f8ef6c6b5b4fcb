ghost use Rattle.std.specs.Prelude.{◌≡◌, ◌≢◌, List, MatchBool};
ghost use Rattle.theory_polynomial.specs.Polynomial.{Monomial};
ghost use Rattle.theory_poly.specs.Hashes.{is_same};

/// Polynomials compare as equal exactly where they have the same terms.
pub fn equal_polynomials_are_the_same()
    ensures { (P Q : List Monomial) → MatchBool (is_same P Q) (P ≡ Q) (P ≢ Q) }
{}
