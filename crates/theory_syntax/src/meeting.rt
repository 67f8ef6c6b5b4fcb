ghost use Rattle.std.specs.Prelude.{◌≡◌, pos, not, MatchOption};
ghost use Rattle.theory_meaning.specs.Divisors.{divisors_of_expr, divisors_of_claim, divisors_of_claims};
ghost use Rattle.theory_meaning.specs.Fraction.{whole, same};
ghost use Rattle.theory_meaning.specs.Truth.{are_nonzero, stands, meets};
ghost use Rattle.theory_meaning.specs.Wide.{HasWideValue, HasWidePart, SomeHasWidePart};
ghost use Rattle.theory_syntax.specs.Plain.{expr_of, claim_of, claims_of, members_of};
ghost use Rattle.theory_syntax.specs.Valued.{IsMeeting, IsTruthWhere};

use crate::claim::{Claim, Sentence};
use crate::expr::Expr;
use crate::truth::{truth, value};
use theory_points::{Frac, Point, Wide};

/// Whether a point meets a sentence: each conjunct is true and no divisor in one is 0; Wide where
/// the value of an expression in it, or of a part of one, passes 2^58.
pub fn meets_at(sentence: &Sentence, point: &Point) -> Result<bool, Wide>
    ensures { IsMeeting (claims_of sentence.now.conjuncts.items) point.now result }
{
    match all_stand(&sentence.conjuncts, point) {
        Some(met) => Ok(met),
        None => Err(Wide),
    }
}

/// The same, with None for Wide; no conjunct is left out.
fn all_stand(claims: &[Claim], point: &Point) -> Option<bool>
    ensures { IsTruthWhere (SomeHasWidePart (members_of claims.now) point.now)
        (meets (claims_of claims.now) point.now) result }
{
    let mut all = true;
    for claim in claims {
        all &= claim_stands(claim, point)?;
    }
    Some(all)
}

/// Whether a claim is true and no divisor in it is 0.
fn claim_stands(claim: &Claim, point: &Point) -> Option<bool>
    ensures { IsTruthWhere (HasWidePart (claim_of claim.now) point.now)
        (stands (claim_of claim.now) point.now) result }
{
    Some(truth(claim, point)? & claim_is_defined(claim, point)?)
}

/// Whether no divisor in a claim is 0; None only where a value in it passes 2^58.
#[cycle(claim_is_defined)]
fn claim_is_defined(claim: &Claim, point: &Point) -> Option<bool>
    ensures { MatchOption result (HasWidePart (claim_of claim.now) point.now)
        (λ t. t ≡ are_nonzero (divisors_of_claim (claim_of claim.now)) point.now) }
{
    match claim {
        Claim::True => Some(true),
        Claim::False => Some(true),
        Claim::Atom(u, _, v) => Some(expr_is_defined(u, point)? & expr_is_defined(v, point)?),
        Claim::Not(c) => claim_is_defined(c, point),
        Claim::And(cs) => all_are_defined(cs, point),
        Claim::Or(cs) => all_are_defined(cs, point),
        Claim::Implies(a, b) => Some(claim_is_defined(a, point)? & claim_is_defined(b, point)?),
        Claim::Iff(a, b) => Some(claim_is_defined(a, point)? & claim_is_defined(b, point)?),
    }
}

/// Whether no divisor in a list of claims is 0.
#[cycle(claim_is_defined)]
fn all_are_defined(claims: &[Claim], point: &Point) -> Option<bool>
    ensures { MatchOption result (SomeHasWidePart (members_of claims.now) point.now)
        (λ t. t ≡ are_nonzero (divisors_of_claims (members_of claims.now)) point.now) }
{
    let mut all = true;
    for claim in claims {
        all &= claim_is_defined(claim, point)?;
    }
    Some(all)
}

/// Whether no divisor in an expression is 0.
fn expr_is_defined(expr: &Expr, point: &Point) -> Option<bool>
    ensures { MatchOption result (HasWideValue (expr_of expr.now) point.now)
        (λ t. t ≡ are_nonzero (divisors_of_expr (expr_of expr.now)) point.now) }
{
    match expr {
        Expr::Num(_) => Some(true),
        Expr::Sym(_) => Some(true),
        Expr::Sum(u, v) => Some(expr_is_defined(u, point)? & expr_is_defined(v, point)?),
        Expr::Diff(u, v) => Some(expr_is_defined(u, point)? & expr_is_defined(v, point)?),
        Expr::Neg(u) => expr_is_defined(u, point),
        Expr::Prod(u, v) => Some(expr_is_defined(u, point)? & expr_is_defined(v, point)?),
        Expr::Pow(u, _) => expr_is_defined(u, point),
        Expr::Quot(u, v) => {
            let tested = is_nonzero(value(v, point)?);
            Some(expr_is_defined(u, point)? & tested & expr_is_defined(v, point)?)
        }
    }
}

fn is_nonzero(q: Frac) -> bool
    ensures { result ≡ not (same q (whole (pos 0))) }
{
    q.num() != 0
}
