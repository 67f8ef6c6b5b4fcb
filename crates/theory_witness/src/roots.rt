ghost use Rattle.std.specs.Prelude.{◌≡◌, ◌<◌, IfOk, OnOk, map};
ghost use Rattle.theory_formula.specs.Formula.{EachAtomOfAll, formulas_from, sign_at};
ghost use Rattle.theory_formula.specs.Symbols.{SomeAtomAmong};
ghost use Rattle.theory_meaning.specs.declared.words.Sign.TheVariants.{Zero};
ghost use Rattle.theory_signs.specs.Plain.{formula_of};
ghost use Rattle.theory_decision.specs.Witness.{only_at, IsRoot, AreRoots};
ghost use Rattle.theory_witness.specs.Lines.{HoldsOnly, IsInOne};
ghost use Rattle.theory_witness.specs.Roots.{inserted, IsPlace, AddsRoots};

use crate::line::line_of;
use std::alloc::Global;
use std::cmp::Ordering;
use theory_points::{Frac, NoMemory};
use theory_signs::{Atom, Formula};

/// Where a root goes in an ascending list.
#[derive(Clone, Copy, Debug)]
enum Place {
    /// The same number stands in the list.
    There,
    /// In front of the root at this place, or at the end.
    Before(usize),
}

/// The roots of a formula in one symbol, upwards and each once.
#[tactic(auto, using(crate::proofs::RootLemmas::added_to_none))]
pub fn roots_of(alloc: Global, x: u8, formula: &Formula) -> Result<Vec<Frac>, NoMemory>
    requires symbol { x < 32 }
    requires only { IsInOne x (formula_of formula.now) }
    ensures { IfOk result (λ roots. AreRoots x (formula_of formula.now) roots.items) }
{
    let mut roots = Vec::new(alloc);
    add_roots(&mut roots, x, formula)?;
    Ok(roots)
}

#[cycle(roots)]
fn add_roots(roots: &mut Vec<Frac>, x: u8, formula: &Formula) -> Result<(), NoMemory>
    requires symbol { x < 32 }
    requires only { IsInOne x (formula_of formula.now) }
    ensures { OnOk result
        (AddsRoots (IsRoot x (formula_of formula.now)) roots.old.items roots.new.items) }
{
    match formula {
        Formula::True | Formula::False => Ok(()),
        Formula::Atom(atom) => add_root(roots, x, atom),
        Formula::And(members) | Formula::Or(members) => add_all_roots(roots, x, members),
    }
}

#[cycle(roots)]
fn add_all_roots(roots: &mut Vec<Frac>, x: u8, formulas: &[Formula]) -> Result<(), NoMemory>
    requires symbol { x < 32 }
    requires only { EachAtomOfAll (HoldsOnly x) (formulas_from (map formula_of formulas.now)) }
    ensures { OnOk result (AddsRoots
        (λ q. SomeAtomAmong (λ P S. sign_at P (only_at x q) ≡ Zero)
        (formulas_from (map formula_of formulas.now))) roots.old.items roots.new.items) }
{
    for formula in formulas {
        add_roots(roots, x, formula)?;
    }
    Ok(())
}

// Adds the root of an atom.
fn add_root(roots: &mut Vec<Frac>, x: u8, atom: &Atom) -> Result<(), NoMemory>
    requires symbol { x < 32 }
    requires only { HoldsOnly x atom.now.poly atom.now.signs }
    ensures { OnOk result (AddsRoots (λ q. sign_at atom.now.poly (only_at x q) ≡ Zero)
        roots.old.items roots.new.items) }
{
    insert_root(roots, line_of(x, atom).root())
}

fn insert_root(roots: &mut Vec<Frac>, root: Frac) -> Result<(), NoMemory>
    ensures { OnOk result (roots.new.items ≡ inserted root roots.old.items) }
{
    match place_of(roots, &root) {
        Place::There => Ok(()),
        Place::Before(k) => {
            roots.insert(k, root)?;
            Ok(())
        }
    }
}

fn place_of(roots: &[Frac], root: &Frac) -> Place
    ensures { IsPlace root.now roots.now result }
{
    for (k, held) in roots.iter().enumerate() {
        match root.compare(held) {
            Ordering::Less => return Place::Before(k),
            Ordering::Equal => return Place::There,
            Ordering::Greater => {}
        }
    }
    Place::Before(roots.len())
}
