ghost use Rattle.std.specs.Prelude.{◌≡◌, IfSome};
ghost use Rattle.theory_meaning.specs.Truth.{truth_of, all_of, some_of};
ghost use Rattle.theory_meaning.specs.Slow.{point_of, claim_of, claims_of};

use crate::slow::fractions::compares;
use crate::slow::values::{Entry, Expr, value};
use crate::words::Rel;

/// A claim over names; a list of claims in it may be empty.
#[derive(Drop)]
pub enum Claim {
    Always,
    Never,
    Atom(Expr, Rel, Expr),
    Negation(Box<Claim>),
    Conjunction(Vec<Claim>),
    Disjunction(Vec<Claim>),
    Implication(Box<Claim>, Box<Claim>),
    Equivalence(Box<Claim>, Box<Claim>),
}

/// The truth of a claim, every part of it computed; None where a value doesn't fit.
#[cycle(truth)]
pub fn truth(claim: &Claim, point: &[Entry]) -> Option<bool>
    ensures { IfSome result (λ t. t ≡ truth_of (claim_of claim.now) (point_of point.now)) }
{
    match claim {
        Claim::Always => Some(true),
        Claim::Never => Some(false),
        Claim::Atom(u, rel, v) => Some(compares(*rel, value(u, point)?, value(v, point)?)),
        Claim::Negation(c) => Some(!truth(c, point)?),
        Claim::Conjunction(cs) => all_true(cs, point),
        Claim::Disjunction(cs) => some_true(cs, point),
        Claim::Implication(a, b) => Some(!truth(a, point)? | truth(b, point)?),
        Claim::Equivalence(a, b) => Some(truth(a, point)? == truth(b, point)?),
    }
}

/// Whether every claim of a list is true; none is left out.
#[cycle(truth)]
fn all_true(claims: &[Claim], point: &[Entry]) -> Option<bool>
    ensures { IfSome result (λ t. t ≡ all_of (claims_of claims.now) (point_of point.now)) }
{
    let mut all = true;
    for claim in claims {
        all &= truth(claim, point)?;
    }
    Some(all)
}

/// Whether some claim of a list is true; none is left out.
#[cycle(truth)]
fn some_true(claims: &[Claim], point: &[Entry]) -> Option<bool>
    ensures { IfSome result (λ t. t ≡ some_of (claims_of claims.now) (point_of point.now)) }
{
    let mut some = false;
    for claim in claims {
        some |= truth(claim, point)?;
    }
    Some(some)
}
