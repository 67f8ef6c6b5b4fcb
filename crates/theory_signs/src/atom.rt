ghost use Rattle.std.specs.Prelude.{◌≡◌, IfOk};
ghost use Rattle.theory_formula.specs.SignCondition.{IsAtomPolynomial};
ghost use Rattle.theory_signs.specs.Condition.{Condition, condition};

use std::alloc::Global;
use std::marker::Model;
use theory_formula::Signs;
use theory_points::NoMemory;
use theory_poly::Poly;

/// A canonical polynomial in which some symbol occurs, and the signs that it may have.
#[derive(Drop)]
pub struct Atom {
    poly: Poly,
    signs: Signs,
}

impl Model for Atom {
    ghost use Rattle.theory_formula.specs.SignCondition.{IsAtomPolynomial};
    ghost use Rattle.theory_signs.specs.Condition.{Condition, condition};

    ghost Value = { Condition };

    ghost view = { λ a. condition a.poly a.signs };

    ghost invariant = { λ a. IsAtomPolynomial a.poly };
}

impl Atom {
    pub(crate) fn new(poly: Poly, signs: Signs) -> Atom
        requires { IsAtomPolynomial poly }
        ensures { result ≡ condition poly signs }
    {
        Atom { poly, signs }
    }

    /// The polynomial, canonical and not constant.
    pub fn poly(&self) -> &Poly
        ensures value { result.now ≡ self.now.poly }
        ensures kept { IsAtomPolynomial self.now.poly }
    {
        &self.poly
    }

    /// The signs that the polynomial may have.
    pub fn signs(&self) -> Signs
        ensures { result ≡ self.now.signs }
    {
        self.signs
    }

    /// The same polynomial with these signs.
    pub fn with_signs(&self, alloc: Global, signs: Signs) -> Result<Atom, NoMemory>
        ensures { IfOk result (λ a. a ≡ condition self.now.poly signs) }
    {
        let poly = self.poly.copy(alloc)?;
        Ok(Atom { poly, signs })
    }
}
