ghost use Rattle.std.specs.Prelude.{◌≡◌, ◌<◌, ◌≤◌, nat_lt, if◌then◌else◌, count_by, length, map};
ghost use Rattle.std.specs.Prelude.{IfOk, OnOk};
ghost use Rattle.std.specs.List.{list_any};
ghost use Rattle.theory_formula.specs.Formula.{formulas_from};
ghost use Rattle.theory_formula.specs.Formula as tree;
ghost use Rattle.theory_formula.specs.FormulaAtoms.{atoms_of};
ghost use Rattle.theory_formula.specs.Symbols.{IsProper};
ghost use Rattle.theory_elimination.specs.TestPoint.{holds_symbol, is_constant};
ghost use Rattle.theory_polynomial.specs.Polynomial.{IsLinearIn, degree_in};
ghost use Rattle.theory_decision.specs.Choice.{has_unsure_slope, is_one_of, symbols_from};
ghost use Rattle.theory_signs.specs.Plain.{formula_of};
ghost use Rattle.theory_search.specs.Atoms.{rows_of, is_other, IsStraight, AddsAtoms, AddsAtomsOfAll};

use std::alloc::Global;
use theory_points::NoMemory;
use theory_poly::Poly;
use theory_signs::{Atom, Formula, constant_sign};

/// The atoms of a formula in reading order.
pub fn atoms<'a>(alloc: Global, formula: &'a Formula) -> Result<Vec<&'a Atom>, NoMemory>
    ensures written { IfOk result (λ found.
        rows_of found.items ≡ atoms_of (formula_of formula.now)) }
    ensures proper { IfOk result (λ _. IsProper (formula_of formula.now)) }
{
    let mut found = Vec::new(alloc);
    add_atoms(formula, &mut found)?;
    Ok(found)
}

#[cycle(atoms)]
fn add_atoms<'a>(formula: &'a Formula, found: &mut Vec<&'a Atom>) -> Result<(), NoMemory>
    ensures { OnOk result
        (AddsAtoms (formula_of formula.now) found.old.items found.new.items) }
{
    match formula {
        Formula::True | Formula::False => Ok(()),
        Formula::Atom(atom) => keep(atom, found),
        Formula::And(members) | Formula::Or(members) => add_all_atoms(members, found),
    }
}

/// An atom has a canonical polynomial with a symbol.
fn keep<'a>(atom: &'a Atom, found: &mut Vec<&'a Atom>) -> Result<(), NoMemory>
    ensures { OnOk result (AddsAtoms
        (tree.atom atom.now.poly atom.now.signs) found.old.items found.new.items) }
{
    // A read tells that the polynomial is canonical.
    let _read = atom.poly();
    found.push(atom)?;
    Ok(())
}

#[cycle(atoms)]
fn add_all_atoms<'a>(formulas: &'a [Formula], found: &mut Vec<&'a Atom>) -> Result<(), NoMemory>
    ensures { OnOk result (AddsAtomsOfAll
        (formulas_from (map formula_of formulas.now)) found.old.items found.new.items) }
{
    for formula in formulas {
        add_atoms(formula, found)?;
    }
    Ok(())
}

/// Whether some symbol occurs that isn't kept.
pub fn has_others(keep: &[u8], atoms: &[&Atom]) -> bool
    ensures { result ≡ list_any (is_other keep.now (rows_of atoms.now)) (symbols_from 0 32) }
{
    for x in 0..32 {
        if is_other(keep, x, atoms) {
            return true;
        }
    }
    false
}

/// Whether the symbol occurs and isn't kept.
pub fn is_other(keep: &[u8], x: u8, atoms: &[&Atom]) -> bool
    requires { x < 32 }
    ensures { result ≡ is_other keep.now (rows_of atoms.now) x }
{
    !is_kept(keep, x) && occurs(x, atoms)
}

fn is_kept(keep: &[u8], x: u8) -> bool
    ensures { result ≡ is_one_of keep.now x }
{
    keep.contains(&x)
}

/// Whether some atom holds the symbol.
pub fn occurs(x: u8, atoms: &[&Atom]) -> bool
    requires { x < 32 }
    ensures { result ≡ list_any (λ a. holds_symbol x a.0) (rows_of atoms.now) }
{
    for atom in atoms {
        if atom.poly().degree_in(x) > 0 {
            return true;
        }
    }
    false
}

/// Whether the degree of the symbol is above 1 in some atom.
pub fn is_curved(x: u8, atoms: &[&Atom]) -> bool
    requires { x < 32 }
    ensures { result ≡ list_any (λ a. nat_lt 1 (degree_in x a.0)) (rows_of atoms.now) }
{
    for atom in atoms {
        if atom.poly().degree_in(x) > 1 {
            return true;
        }
    }
    false
}

/// How many atoms hold the symbol.
pub fn holding(x: u8, atoms: &[&Atom]) -> u32
    requires symbol { x < 32 }
    requires few { length atoms.now ≤ 512 }
    ensures { result ≡ count_by (λ a. holds_symbol x a.0) (rows_of atoms.now) }
{
    let mut count = 0;
    for atom in atoms {
        count += one_if(atom.poly().degree_in(x) > 0);
    }
    count
}

/// How many atoms hold the symbol with a coefficient that isn't constant.
pub fn unsure(alloc: Global, x: u8, atoms: &[&Atom]) -> Result<u32, NoMemory>
    requires symbol { x < 32 }
    requires few { length atoms.now ≤ 512 }
    requires straight { IsStraight x (rows_of atoms.now) }
    ensures { IfOk result (λ n.
        n ≡ count_by (λ a. has_unsure_slope x a.0) (rows_of atoms.now)) }
{
    let mut count = 0;
    for atom in atoms {
        count += one_if(is_unsure(alloc, x, atom.poly())?);
    }
    Ok(count)
}

fn one_if(counts: bool) -> u32
    ensures { result ≡ (if counts then 1 else 0) }
{
    if counts { 1 } else { 0 }
}

/// Whether a polynomial that is linear in the symbol has it with a slope that isn't constant.
fn is_unsure(alloc: Global, x: u8, poly: &Poly) -> Result<bool, NoMemory>
    requires { x < 32 }
    ensures { IfOk result (λ b. IsLinearIn x poly.now → b ≡ has_unsure_slope x poly.now) }
{
    if poly.degree_in(x) != 1 {
        return Ok(false);
    }
    let (slope, _) = poly.split_linear(alloc, x)?;
    Ok(!is_constant(&slope))
}

/// Whether no symbol occurs.
pub fn is_constant(poly: &Poly) -> bool
    ensures { result ≡ is_constant poly.now }
{
    constant_sign(poly).is_some()
}
