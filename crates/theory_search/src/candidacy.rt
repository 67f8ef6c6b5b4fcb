ghost use Rattle.std.specs.Prelude.{◌≡◌, ◌≢◌, ◌<◌, ◌≤◌, ◌++◌, [], length, map, IfOk, OnOk};
ghost use Rattle.std.specs.List.{list_any};
ghost use Rattle.std.specs.Option.{is_some, option_to_list};
ghost use Rattle.theory_formula.specs.Formula.{formulas_from};
ghost use Rattle.theory_formula.specs.Formula as tree;
ghost use Rattle.theory_formula.specs.FormulaAtoms.{atoms_of, atoms_of_all};
ghost use Rattle.theory_elimination.specs.TestPoint.{holds_symbol};
ghost use Rattle.theory_elimination.specs.TopEquation.{plain_equation_of, members_of};
ghost use Rattle.theory_elimination.specs.TopEquation.{if_plain, equation_if};
ghost use Rattle.theory_polynomial.specs.Polynomial.{degree_in};
ghost use Rattle.theory_decision.specs.Choice as written;
ghost use Rattle.theory_signs.specs.Plain.{formula_of};
ghost use Rattle.theory_search.specs.Asked.{IsAsked};
ghost use Rattle.theory_search.specs.Atoms.{rows_of, IsStraight};
ghost use Rattle.theory_search.specs.Candidacy.{candidate_at};

use crate::atoms::{atoms, holding, is_constant, is_curved, is_other, unsure};
use std::alloc::Global;
use theory_decision::Candidate;
use theory_points::NoMemory;
use theory_poly::Poly;
use theory_signs::{Atom, Formula, Signs};

/// A list of candidates.
pub type Candidates = Vec<Candidate>;

/// The symbols that can be eliminated, upwards, with what a choice may look at.
pub fn candidates(alloc: Global, formula: &Formula) -> Result<Candidates, NoMemory>
    requires { length (atoms_of (formula_of formula.now)) ≤ 512 }
    ensures written { IfOk result (λ cs.
        cs.items ≡ written.candidates [] (formula_of formula.now)) }
    ensures asked { IfOk result (λ cs. cs.items ≢ [] → IsAsked cs.items) }
{
    let found = atoms(alloc, formula)?;
    listed(alloc, &[], formula, &found)
}

/// The same but for kept symbols, by the atoms of the formula.
pub fn listed(
    alloc: Global,
    keep: &[u8],
    formula: &Formula,
    atoms: &[&Atom],
) -> Result<Candidates, NoMemory>
    requires few { length atoms.now ≤ 512 }
    requires own { rows_of atoms.now ≡ atoms_of (formula_of formula.now) }
    ensures written { IfOk result (λ cs.
        cs.items ≡ written.candidates keep.now (formula_of formula.now)) }
    ensures asked { IfOk result (λ cs. cs.items ≢ [] → IsAsked cs.items) }
{
    let mut all = Vec::new(alloc);
    for x in 0..32 {
        add(&mut all, candidate(alloc, keep, x, formula, atoms)?)?;
    }
    Ok(all)
}

fn add(all: &mut Candidates, found: Option<Candidate>) -> Result<(), NoMemory>
    ensures { OnOk result (all.new.items ≡ all.old.items ++ option_to_list found) }
{
    match found {
        Some(candidate) => {
            all.push(candidate)?;
            Ok(())
        }
        None => Ok(()),
    }
}

/// The symbol as a candidate, if it occurs, isn't kept and is linear in every atom.
fn candidate(
    alloc: Global,
    keep: &[u8],
    x: u8,
    formula: &Formula,
    atoms: &[&Atom],
) -> Result<Option<Candidate>, NoMemory>
    requires symbol { x < 32 }
    requires few { length atoms.now ≤ 512 }
    requires own { rows_of atoms.now ≡ atoms_of (formula_of formula.now) }
    ensures { IfOk result (λ found. found ≡ candidate_at keep.now (formula_of formula.now) x) }
{
    if !is_other(keep, x, atoms) || is_curved(x, atoms) {
        return Ok(None);
    }
    let unit = is_unit(alloc, x, formula)?;
    let unsure = unsure(alloc, x, atoms)?;
    Ok(Some(Candidate {
        symbol: x,
        atoms: holding(x, atoms),
        unit,
        unsure,
    }))
}

/// Whether a top equation holds the symbol with a constant coefficient.
fn is_unit(alloc: Global, x: u8, formula: &Formula) -> Result<bool, NoMemory>
    requires symbol { x < 32 }
    requires straight { IsStraight x (atoms_of (formula_of formula.now)) }
    ensures { IfOk result (λ b. b ≡ list_any (λ G. is_some (plain_equation_of x G))
        (members_of (formula_of formula.now))) }
{
    match formula {
        Formula::And(members) => some_is_plain(alloc, x, members),
        Formula::Atom(_) => is_plain(alloc, x, formula),
        Formula::True | Formula::False | Formula::Or(_) => Ok(false),
    }
}

fn some_is_plain(alloc: Global, x: u8, members: &[Formula]) -> Result<bool, NoMemory>
    requires symbol { x < 32 }
    requires straight { IsStraight x
        (atoms_of_all (formulas_from (map formula_of members.now))) }
    ensures { IfOk result (λ b. b ≡ list_any (λ G. is_some (plain_equation_of x G))
        (map formula_of members.now)) }
{
    for member in members {
        if is_plain(alloc, x, member)? {
            return Ok(true);
        }
    }
    Ok(false)
}

/// Whether this is an equation that holds the symbol with a constant coefficient.
fn is_plain(alloc: Global, x: u8, formula: &Formula) -> Result<bool, NoMemory>
    requires { x < 32 }
    ensures { IfOk result (λ b. IsStraight x (atoms_of (formula_of formula.now)) →
        b ≡ is_some (plain_equation_of x (formula_of formula.now))) }
{
    match formula {
        Formula::Atom(atom) => is_plain_equation(alloc, x, atom),
        Formula::True | Formula::False | Formula::And(_) | Formula::Or(_) => Ok(false),
    }
}

fn is_plain_equation(alloc: Global, x: u8, atom: &Atom) -> Result<bool, NoMemory>
    requires { x < 32 }
    ensures { IfOk result (λ b. degree_in x atom.now.poly ≤ 1 →
        b ≡ is_some (plain_equation_of x (tree.atom atom.now.poly atom.now.signs))) }
{
    match atom.signs() {
        Signs::Zero => has_constant_slope(alloc, x, atom.poly()),
        _ => Ok(false),
    }
}

fn has_constant_slope(alloc: Global, x: u8, poly: &Poly) -> Result<bool, NoMemory>
    requires { x < 32 }
    ensures { IfOk result (λ b. degree_in x poly.now ≤ 1 →
        b ≡ is_some (if_plain x (equation_if (holds_symbol x poly.now) poly.now))) }
{
    if poly.degree_in(x) != 1 {
        return Ok(false);
    }
    let (slope, _) = poly.split_linear(alloc, x)?;
    Ok(is_constant(&slope))
}
