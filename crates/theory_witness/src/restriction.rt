ghost use Rattle.std.specs.Prelude.{◌++◌, ◌≡◌, [], ◌∷◌, map, IfOk, OnOk};
ghost use Rattle.theory_formula.specs.Formula.{formulas_from};
ghost use Rattle.theory_formula.specs.Symbols.{SomeAtomAmong};
ghost use Rattle.theory_decision.specs.Witness.{IsAtValues, IsWideAtValues};
ghost use Rattle.theory_decision.specs.Witness.{IsFormulaAtValues, AreFormulasAtValues};
ghost use Rattle.theory_poly.specs.Answers.{WideWhere};
ghost use Rattle.theory_signs.specs.Plain.{formula_of};
ghost use Rattle.theory_witness.specs.Restriction.{AreSymbols, IsAtomAtValues};
ghost use Rattle.theory_witness.specs.Restriction.{IsWideFormulaAtValues};

use std::alloc::Global;
use theory_points::{Frac, Limit, NoMemory};
use theory_poly::Poly;
use theory_signs::{Atom, Formula, Formulas, make_atom};

/// A formula restricted to values, one symbol after the other; Wide where a step passes a limit.
#[cycle(restricted)]
pub fn restricted(alloc: Global, values: &[(u8, Frac)], formula: &Formula) -> Result<Formula, Limit>
    requires { AreSymbols values.now }
    ensures written { IfOk result
        (λ F. IsFormulaAtValues values.now (formula_of formula.now) (formula_of F)) }
    ensures wide { WideWhere (IsWideFormulaAtValues values.now (formula_of formula.now)) result }
{
    match formula {
        Formula::True => Ok(Formula::True),
        Formula::False => Ok(Formula::False),
        Formula::Atom(atom) => restricted_atom(alloc, values, atom),
        Formula::And(members) => match all_restricted(alloc, values, members) {
            Ok(members) => Ok(Formula::And(members)),
            Err(limit) => Err(limit),
        },
        Formula::Or(members) => match all_restricted(alloc, values, members) {
            Ok(members) => Ok(Formula::Or(members)),
            Err(limit) => Err(limit),
        },
    }
}

#[cycle(restricted)]
fn all_restricted(
    alloc: Global,
    values: &[(u8, Frac)],
    formulas: &[Formula],
) -> Result<Formulas, Limit>
    requires { AreSymbols values.now }
    ensures written { IfOk result (λ Fs. AreFormulasAtValues values.now
        (formulas_from (map formula_of formulas.now)) (formulas_from (map formula_of Fs.items))) }
    ensures wide { WideWhere (SomeAtomAmong (λ P S. IsWideAtValues values.now P)
        (formulas_from (map formula_of formulas.now))) result }
{
    let mut all = Vec::new(alloc);
    for formula in formulas {
        match restricted(alloc, values, formula) {
            Ok(there) => keep(&mut all, there)?,
            Err(limit) => return Err(limit),
        }
    }
    Ok(all)
}

// Adds a member at the end.
fn keep(members: &mut Formulas, formula: Formula) -> Result<(), NoMemory>
    ensures { OnOk result (members.new.items ≡ members.old.items ++ formula ∷ []) }
{
    members.push(formula)?;
    Ok(())
}

fn restricted_atom(alloc: Global, values: &[(u8, Frac)], atom: &Atom) -> Result<Formula, Limit>
    requires { AreSymbols values.now }
    ensures written { IfOk result
        (λ F. IsAtomAtValues values.now atom.now.poly atom.now.signs (formula_of F)) }
    ensures wide { WideWhere (IsWideAtValues values.now atom.now.poly) result }
{
    match at_values(alloc, values, atom.poly()) {
        Ok(there) => Ok(make_atom(alloc, &there, atom.signs())?),
        Err(limit) => Err(limit),
    }
}

// A polynomial restricted to the values, one symbol after the other.
fn at_values(alloc: Global, values: &[(u8, Frac)], poly: &Poly) -> Result<Poly, Limit>
    requires { AreSymbols values.now }
    ensures written { IfOk result (IsAtValues values.now poly.now) }
    ensures wide { WideWhere (IsWideAtValues values.now poly.now) result }
{
    let mut held = poly.copy(alloc)?;
    for (symbol, value) in values {
        match held.restrict(alloc, *symbol, value) {
            Ok(next) => held = next,
            Err(limit) => return Err(limit),
        }
    }
    Ok(held)
}
