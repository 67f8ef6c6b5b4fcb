ghost use Rattle.std.specs.Prelude.{◌≡◌, ◌<◌, map};
ghost use Rattle.theory_formula.specs.Signs.{has};
ghost use Rattle.theory_formula.specs.Formula.{EachAtomOfAll, formulas_from, sign_at};
ghost use Rattle.theory_formula.specs.Formula.{truth_at, all_by, some_by, reading_at};
ghost use Rattle.theory_signs.specs.Plain.{formula_of};
ghost use Rattle.theory_decision.specs.Witness.{only_at};
ghost use Rattle.theory_witness.specs.Lines.{HoldsOnly, IsInOne};

use crate::line::line_of;
use crate::ratio::Ratio;
use theory_signs::{Atom, Formula};

/// Whether a formula in one symbol is true at a value of it.
#[cycle(trial)]
pub fn is_true_at(x: u8, formula: &Formula, at: &Ratio) -> bool
    requires symbol { x < 32 }
    requires only { IsInOne x (formula_of formula.now) }
    ensures { result ≡ truth_at (formula_of formula.now) (only_at x at.now) }
{
    match formula {
        Formula::True => true,
        Formula::False => false,
        Formula::Atom(atom) => is_atom_true_at(x, atom, at),
        Formula::And(members) => are_all_true_at(x, members, at),
        Formula::Or(members) => is_some_true_at(x, members, at),
    }
}

#[cycle(trial)]
fn are_all_true_at(x: u8, formulas: &[Formula], at: &Ratio) -> bool
    requires symbol { x < 32 }
    requires only { EachAtomOfAll (HoldsOnly x) (formulas_from (map formula_of formulas.now)) }
    ensures { result ≡ all_by (reading_at (only_at x at.now))
        (formulas_from (map formula_of formulas.now)) }
{
    for formula in formulas {
        if !is_true_at(x, formula, at) {
            return false;
        }
    }
    true
}

#[cycle(trial)]
fn is_some_true_at(x: u8, formulas: &[Formula], at: &Ratio) -> bool
    requires symbol { x < 32 }
    requires only { EachAtomOfAll (HoldsOnly x) (formulas_from (map formula_of formulas.now)) }
    ensures { result ≡ some_by (reading_at (only_at x at.now))
        (formulas_from (map formula_of formulas.now)) }
{
    for formula in formulas {
        if is_true_at(x, formula, at) {
            return true;
        }
    }
    false
}

fn is_atom_true_at(x: u8, atom: &Atom, at: &Ratio) -> bool
    requires symbol { x < 32 }
    requires only { HoldsOnly x atom.now.poly atom.now.signs }
    ensures { result ≡ has atom.now.signs (sign_at atom.now.poly (only_at x at.now)) }
{
    atom.signs().has(line_of(x, atom).sign_at(at))
}
