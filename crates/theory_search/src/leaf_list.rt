ghost use Rattle.std.specs.Prelude.{◌≡◌, ◌+◌, ◌≤◌, ◌&&◌, nat_lt, not, length, [], map, IfOk};
ghost use Rattle.theory_formula.specs.Formula.{disjunction, formulas_from};
ghost use Rattle.theory_decision.specs.Finding.{size_of};
ghost use Rattle.theory_signs.specs.Plain.{formula_of};
ghost use Rattle.theory_search.specs.LeafLists.{AddsLeaf};

use crate::atoms::atoms;
use std::alloc::Global;
use theory_points::NoMemory;
use theory_signs::{Formula, Formulas};

/// Leaves in their order, at most 4,096.
#[derive(Drop)]
pub struct LeafList {
    pub formulas: Formulas,
    /// How many atoms there are in them, at most 16,384.
    pub atoms: usize,
    ghost counted: { atoms ≡ size_of (disjunction (formulas_from (map formula_of formulas.items))) },
    ghost few: { atoms ≤ 16384 },
}

impl LeafList {
    /// No leaf.
    pub fn new(alloc: Global) -> LeafList
        ensures { result.formulas.items ≡ [] }
    {
        LeafList {
            formulas: Vec::new(alloc),
            atoms: 0,
        }
    }

    /// Adds a leaf, unless there would be too many with it.
    pub fn add(&mut self, alloc: Global, leaf: Formula) -> Result<bool, NoMemory>
        ensures { IfOk result (AddsLeaf (formula_of leaf)
            (map formula_of self.old.formulas.items)
            (map formula_of self.new.formulas.items)) }
    {
        let atoms = atoms(alloc, &leaf)?.len();
        if !self.has_room(atoms) {
            return Ok(false);
        }
        self.formulas.push(leaf)?;
        self.atoms += atoms;
        Ok(true)
    }

    /// Whether there are not too many with one leaf more, of this number of atoms.
    fn has_room(&self, atoms: usize) -> bool
        ensures { result ≡ (nat_lt (length self.now.formulas.items) 4096
            && not (nat_lt 16384 (self.now.atoms + atoms))) }
    {
        self.formulas.len() < 4096 && atoms <= 16384 - self.atoms
    }
}
