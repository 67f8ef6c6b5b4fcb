ghost use Rattle.std.specs.Prelude.{◌≡◌, ◌<◌, slice_set, IfOk};
ghost use Rattle.theory_polynomial.specs.Polynomial.{monomial, degree_in};
ghost use Rattle.theory_polynomial.specs.PolynomialValue.{part_of};
ghost use Rattle.theory_poly.specs.Kept.{IsKept};

use crate::poly::Poly;
use crate::term::Term;
use std::alloc::Global;
use theory_points::NoMemory;

/// The terms with one exponent of a symbol, without the symbol.
pub fn part(alloc: Global, x: u8, exponent: u8, terms: &[Term]) -> Result<Poly, NoMemory>
    requires symbol { x < 32 }
    requires terms { IsKept terms.now }
    ensures { IfOk result (λ r. r ≡ part_of x exponent terms.now) }
{
    let mut all = Vec::new(alloc);
    for t in terms {
        if t.powers[x as usize] == exponent {
            all.push(without(x, t))?;
        }
    }
    Ok(Poly::from_kept(all))
}

fn without(x: u8, t: &Term) -> Term
    requires { x < 32 }
    ensures { result ≡ monomial t.now.coefficient (slice_set t.now.powers x 0) }
{
    let mut powers = t.powers;
    powers[x as usize] = 0;
    Term {
        coefficient: t.coefficient,
        powers,
    }
}

/// The greatest exponent of a symbol, 0 for none.
pub fn greatest_exponent(x: u8, terms: &[Term]) -> u8
    requires { x < 32 }
    ensures { result ≡ degree_in x terms.now }
{
    let mut greatest = 0;
    for t in terms {
        greatest = greatest.max(t.powers[x as usize]);
    }
    greatest
}
