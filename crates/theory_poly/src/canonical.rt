ghost use Rattle.std.specs.Prelude.{◌≡◌, ◌<◌, length, slice_index_or, int_lt, [], ℤ, pos, negsuc, IfOk, if◌then◌else◌};
ghost use Rattle.theory_polynomial.specs.Polynomial.{monomial};
ghost use Rattle.theory_poly.specs.Kept.{IsKept, IsSignedForm};

use crate::content::primitive;
use crate::judging::narrowed;
use crate::merging::multiplied;
use crate::poly::Poly;
use crate::term::Term;
use std::alloc::Global;
use theory_points::NoMemory;

/// The terms divided by their content, with the other sign where it is to be turned.
pub fn signed_form(alloc: Global, turned: bool, terms: &[Term]) -> Result<Poly, NoMemory>
    requires { IsKept terms.now }
    ensures { IfOk result (IsSignedForm turned terms.now) }
{
    let all = multiplied(alloc, unit(turned), terms)?;
    let least = primitive(alloc, &all)?;
    narrowed(alloc, &least)
}

/// Whether the first coefficient is below 0.
pub fn starts_below(terms: &[Term]) -> bool
    requires { 0 < length terms.now }
    ensures { result
        ≡ int_lt (slice_index_or terms.now 0 (monomial (pos 0) [])).coefficient (pos 0) }
{
    terms[0].coefficient < 0
}

fn unit(turned: bool) -> i64
    ensures { result ≡ (if turned then negsuc 0 else pos 1) }
{
    if turned { -1 } else { 1 }
}
