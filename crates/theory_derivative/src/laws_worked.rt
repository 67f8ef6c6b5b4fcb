ghost use Rattle.std.specs.Prelude.{◌≡◌, ◌∷◌, ◌++◌, [], Some, None, codes};
ghost use Rattle.theory_meaning.specs.Tree.{sum, difference, opposite, power, symbol, negation};
ghost use Rattle.theory_derivative.specs.Derivative.{derivative};
ghost use Rattle.theory_derivative.specs.Differentiated.{differentiated_in};
ghost use Rattle.theory_derivative.specs.Sentence.{example_of, counter_of};
ghost use Rattle.theory_derivative.specs.Worked.{p, dp, square_times, square_slope, share, share_slope, function_slope};
ghost use Rattle.theory_derivative.specs.WorkedModels.{passed_on, tax_model, tax_equations, tax_slopes, tax_assumptions, tax_derived, plain_model, plain_derived, plain_equations, plain_slopes};

/// Derivatives of p^2*t along t and along s, and of p/t, s - p, p^1 and f along t.
pub fn worked_derivatives()
    ensures product { derivative plain_model (codes "t") square_times
        ≡ sum square_slope (power p 2) }
    ensures power { derivative plain_model (codes "s") square_times ≡ square_slope }
    ensures quotient { derivative plain_model (codes "t") share ≡ share_slope }
    ensures difference { derivative plain_model (codes "t") (difference (symbol (codes "s")) p)
        ≡ opposite dp }
    ensures first { derivative plain_model (codes "t") (power p 1) ≡ dp }
    ensures function { derivative plain_model (codes "t") (symbol (codes "f")) ≡ function_slope }
{}

/// The sentences of the claim that the tax is passed on in part, and those without a shift.
pub fn worked_sentences()
    ensures example { example_of tax_model (Some (codes "t")) passed_on
        ≡ tax_equations ++ tax_slopes ++ tax_assumptions ++ passed_on ∷ [] }
    ensures counter { counter_of tax_model (Some (codes "t")) passed_on
        ≡ tax_equations ++ tax_slopes ++ tax_assumptions ++ negation passed_on ∷ [] }
    ensures plain { example_of tax_model None passed_on
        ≡ tax_equations ++ tax_assumptions ++ passed_on ∷ [] }
    ensures two_parameters { example_of plain_model (Some (codes "t")) passed_on
        ≡ plain_equations ++ plain_slopes ++ passed_on ∷ [] }
{}

/// The lines of `derive`: by parameters first, and by equations under each.
pub fn worked_lines()
    ensures tax { differentiated_in tax_model ≡ tax_derived }
    ensures plain { differentiated_in plain_model ≡ plain_derived }
{}
