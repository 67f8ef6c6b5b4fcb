ghost use Rattle.std.specs.Prelude.{◌≡◌, IfOk};
ghost use Rattle.theory_elimination.specs.SameFormula.{is_same_poly};
ghost use Rattle.theory_signs.specs.Condition.{condition};

use std::alloc::Global;
use std::marker::Model;
use theory_points::NoMemory;
use theory_poly::Poly;
use theory_signs::{Atom, Signs};

/// A sign condition on the polynomial of an atom that is lent.
#[derive(Drop)]
pub struct LentAtom<'a> {
    atom: &'a Atom,
    signs: Signs,
}

impl<'a> Model for LentAtom<'a> {
    ghost use Rattle.theory_signs.specs.Condition.{Condition, condition};

    ghost Value = { Condition };

    ghost view = { λ a. condition a.atom.now.poly a.signs };
}

impl<'a> LentAtom<'a> {
    pub fn new(atom: &'a Atom) -> LentAtom<'a>
        ensures { result ≡ atom.now }
    {
        LentAtom {
            atom,
            signs: atom.signs(),
        }
    }

    /// The polynomial.
    pub fn poly(&self) -> &Poly
        ensures { result.now ≡ self.now.poly }
    {
        self.atom.poly()
    }

    /// The signs that the polynomial may have.
    pub fn signs(&self) -> Signs
        ensures { result ≡ self.now.signs }
    {
        self.signs
    }

    /// The same polynomial with these signs.
    pub fn with_signs(&self, signs: Signs) -> LentAtom<'a>
        ensures { result ≡ condition self.now.poly signs }
    {
        LentAtom {
            atom: self.atom,
            signs,
        }
    }

    /// Whether both are conditions on the same polynomial.
    pub fn has_poly_of(&self, other: &LentAtom<'_>) -> bool
        ensures { result ≡ is_same_poly self.now.poly other.now.poly }
    {
        self.poly() == other.poly()
    }

    /// An atom of its own.
    pub fn to_atom(&self, alloc: Global) -> Result<Atom, NoMemory>
        ensures { IfOk result (λ a. a ≡ self.now) }
    {
        self.atom.with_signs(alloc, self.signs)
    }
}
