ghost use Rattle.std.specs.Prelude.{◌≡◌, IfOk, map};
ghost use Rattle.theory_meaning.specs.Point.{Point};
ghost use Rattle.theory_meaning.specs.Tree.{claims_from};
ghost use Rattle.theory_meaning.specs.Truth.{truth_of};
ghost use Rattle.theory_formula.specs.Formula.{truth_at, EachAtom};
ghost use Rattle.theory_formula.specs.Formula as plain;
ghost use Rattle.theory_lowering.specs.Lowered.{values_of};
ghost use Rattle.theory_lowering.specs.WrittenClaim.{written_claim, rel_of, both_of, either_of};
ghost use Rattle.theory_formula.specs.Symbols.{IsNamed};
ghost use Rattle.theory_syntax.specs.Plain.{claim_of as tree_of};
ghost use Rattle.theory_signs.specs.Plain.{formula_of};

use crate::polynomials::polynomial;
use std::alloc::Global;
use theory_points::{Frac, Name, Names, NoMemory};
use theory_signs::{Atom, Formula, Signs};
use theory_syntax::{Claim, Claims, Expr, Rel};

/// The claim that is written for a formula, where symbol k has the k-th name.
pub fn claim_of(alloc: Global, formula: &Formula, symbols: &Names) -> Result<Claim, NoMemory>
    requires { EachAtom (IsNamed symbols.now) (formula_of formula.now) }
    ensures written { IfOk result (λ c.
        tree_of c ≡ written_claim symbols.now (formula_of formula.now)) }

    // At every point it is true exactly where the formula is at the values of the names.
    ensures truth { IfOk result (λ c. (p : Point) →
        truth_of (tree_of c) p ≡ truth_at (formula_of formula.now) (values_of symbols.now p)) }
{
    written(alloc, formula, symbols.as_slice())
}

#[cycle(written)]
fn written(alloc: Global, formula: &Formula, names: &[Name]) -> Result<Claim, NoMemory>
    ensures { IfOk result (λ c. tree_of c ≡ written_claim names.now (formula_of formula.now)) }
{
    match formula {
        Formula::True => Ok(Claim::True),
        Formula::False => Ok(Claim::False),
        Formula::Atom(atom) => comparison(alloc, atom, names),
        Formula::And(members) => Ok(both(all_written(alloc, members, names)?)),
        Formula::Or(members) => Ok(either(all_written(alloc, members, names)?)),
    }
}

#[cycle(written)]
fn all_written(alloc: Global, formulas: &[Formula], names: &[Name]) -> Result<Claims, NoMemory>
    ensures { IfOk result (λ cs. map tree_of cs.items
        ≡ map (written_claim names.now) (map formula_of formulas.now)) }
{
    let mut all = Vec::new(alloc);
    for formula in formulas {
        all.push(written(alloc, formula, names)?)?;
    }
    Ok(all)
}

/// The polynomial of an atom in its relation to 0.
fn comparison(alloc: Global, atom: &Atom, names: &[Name]) -> Result<Claim, NoMemory>
    ensures { IfOk result (λ c.
        tree_of c ≡ written_claim names.now (plain.atom atom.now.poly atom.now.signs)) }
{
    let left = polynomial(alloc, names, atom.poly().terms())?;
    Ok(Claim::Atom(left, relation(atom.signs()), Expr::Num(Frac::zero())))
}

fn relation(signs: Signs) -> Rel
    ensures { result ≡ rel_of signs }
{
    match signs {
        Signs::Neg => Rel::Lt,
        Signs::Zero => Rel::Eq,
        Signs::Pos => Rel::Gt,
        Signs::NotPos => Rel::Le,
        Signs::NonZero => Rel::Ne,
        Signs::NotNeg => Rel::Ge,
    }
}

/// All of the members; true where there is none.
fn both(mut members: Claims) -> Claim
    ensures { tree_of result ≡ both_of (claims_from (map tree_of members.items)) }
{
    if members.len() > 1 {
        return Claim::And(members);
    }
    match members.pop() {
        Some(only) => only,
        None => Claim::True,
    }
}

/// Some of the members; false where there is none.
fn either(mut members: Claims) -> Claim
    ensures { tree_of result ≡ either_of (claims_from (map tree_of members.items)) }
{
    if members.len() > 1 {
        return Claim::Or(members);
    }
    match members.pop() {
        Some(only) => only,
        None => Claim::False,
    }
}
