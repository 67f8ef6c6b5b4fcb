ghost use Rattle.std.specs.Prelude.{◌<◌, map, MatchBool};
ghost use Rattle.theory_formula.specs.Formula.{EachAtomOfAll, formulas_from};
ghost use Rattle.theory_elimination.specs.Elimination.{IsLinear, IsLinearAtom};
ghost use Rattle.theory_signs.specs.Plain.{formula_of};

use theory_signs::{Atom, Formula};

/// Whether each atom is linear in the symbol, as substitution and branches require.
pub fn is_linear(x: u8, formula: &Formula) -> bool
    requires { x < 32 }
    ensures { MatchBool result
        (IsLinear x (formula_of formula.now)) (¬ IsLinear x (formula_of formula.now)) }
{
    has_linear_atoms(x, formula)
}

#[cycle(linear)]
fn has_linear_atoms(x: u8, formula: &Formula) -> bool
    requires { x < 32 }
    ensures { MatchBool result
        (IsLinear x (formula_of formula.now)) (¬ IsLinear x (formula_of formula.now)) }
{
    match formula {
        Formula::True | Formula::False => true,
        Formula::Atom(atom) => is_linear_atom(x, atom),
        Formula::And(members) | Formula::Or(members) => have_linear_atoms(x, members),
    }
}

#[cycle(linear)]
fn have_linear_atoms(x: u8, formulas: &[Formula]) -> bool
    requires { x < 32 }
    ensures { MatchBool result
        (EachAtomOfAll (IsLinearAtom x) (formulas_from (map formula_of formulas.now)))
        (¬ EachAtomOfAll (IsLinearAtom x) (formulas_from (map formula_of formulas.now))) }
{
    for formula in formulas {
        if !has_linear_atoms(x, formula) {
            return false;
        }
    }
    true
}

fn is_linear_atom(x: u8, atom: &Atom) -> bool
    requires { x < 32 }
    ensures { MatchBool result (IsLinearAtom x atom.now.poly atom.now.signs)
        (¬ IsLinearAtom x atom.now.poly atom.now.signs) }
{
    atom.poly().degree_in(x) <= 1
}
