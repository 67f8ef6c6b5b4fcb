ghost use Rattle.std.specs.Prelude.{◌≡◌, ◌≢◌, MatchOption, IfSome, ℕ, ◌≤◌, ◌*ℤ◌, IsTrue};
ghost use Rattle.theory_meaning.specs.Fraction.{IsSame, cross, power_of, quotient_of};
ghost use Rattle.theory_meaning.specs.Limits.{IsWide};
ghost use Rattle.theory_meaning.specs.Truth.{value_of, truth_of, holds, all_of, some_of};
ghost use Rattle.theory_meaning.specs.Wide.{HasWideValue, HasWidePart, SomeHasWidePart};
ghost use Rattle.theory_points.specs.Parts.{IsKept};
ghost use Rattle.theory_syntax.specs.Plain.{expr_of, claim_of, members_of};
ghost use Rattle.theory_syntax.specs.Valued.{IsTruth, IsTruthWhere, IsValued};

use crate::claim::Claim;
use crate::expr::Expr;
use std::cmp::Ordering;
use theory_meaning::Rel;
use theory_points::{Frac, Point, Wide};

/// The truth of a claim at a point, every part of it computed; Wide where the value of an
/// expression in it, or of a part of one, passes 2^58, also where that couldn't change the truth.
pub fn truth_at(claim: &Claim, point: &Point) -> Result<bool, Wide>
    ensures { IsTruth (claim_of claim.now) point.now result }
{
    match truth(claim, point) {
        Some(told) => Ok(told),
        None => Err(Wide),
    }
}

/// The same, with None for Wide.
#[cycle(truth)]
pub(crate) fn truth(claim: &Claim, point: &Point) -> Option<bool>
    ensures { IsTruthWhere (HasWidePart (claim_of claim.now) point.now)
        (truth_of (claim_of claim.now) point.now) result }
{
    match claim {
        Claim::True => Some(true),
        Claim::False => Some(false),
        Claim::Atom(u, rel, v) => Some(compares(*rel, value(u, point)?, value(v, point)?)),
        Claim::Not(c) => Some(!truth(c, point)?),
        Claim::And(cs) => all_true(cs, point),
        Claim::Or(cs) => some_true(cs, point),
        Claim::Implies(a, b) => Some(!truth(a, point)? | truth(b, point)?),
        Claim::Iff(a, b) => Some(truth(a, point)? == truth(b, point)?),
    }
}

/// Whether every claim of a list is true; none is left out.
#[cycle(truth)]
fn all_true(claims: &[Claim], point: &Point) -> Option<bool>
    ensures { IsTruthWhere (SomeHasWidePart (members_of claims.now) point.now)
        (all_of (members_of claims.now) point.now) result }
{
    let mut all = true;
    for claim in claims {
        all &= truth(claim, point)?;
    }
    Some(all)
}

/// Whether some claim of a list is true; none is left out.
#[cycle(truth)]
fn some_true(claims: &[Claim], point: &Point) -> Option<bool>
    ensures { IsTruthWhere (SomeHasWidePart (members_of claims.now) point.now)
        (some_of (members_of claims.now) point.now) result }
{
    let mut some = false;
    for claim in claims {
        some |= truth(claim, point)?;
    }
    Some(some)
}

/// The value of an expression at a point; None where it or a part of it passes 2^58.
pub(crate) fn value(expr: &Expr, point: &Point) -> Option<Frac>
    ensures { IsValued (HasWideValue (expr_of expr.now) point.now)
        (value_of (expr_of expr.now) point.now) result }
{
    match expr {
        Expr::Num(q) => Some(kept(*q)),
        Expr::Sym(name) => Some(kept(point.value(name))),
        Expr::Sum(u, v) => value(u, point)?.add(&value(v, point)?),
        Expr::Diff(u, v) => value(u, point)?.sub(&value(v, point)?),
        Expr::Neg(u) => Some(kept(value(u, point)?.neg())),
        Expr::Prod(u, v) => value(u, point)?.mul(&value(v, point)?),
        Expr::Pow(u, k) => power(value(u, point)?, *k),
        Expr::Quot(u, v) => quotient(value(u, point)?, value(v, point)?),
    }
}

/// The same fraction, which is in lowest terms and within the bound as every one.
fn kept(q: Frac) -> Frac
    ensures value { result ≡ q }
    ensures kept { IsKept q }
{
    let _top = q.num();
    q
}

/// The product of `k` copies; None where it passes 2^58.
fn power(q: Frac, k: u8) -> Option<Frac>
    requires { IsKept q }
    ensures { MatchOption result (IsWide (power_of q k)) (λ f. IsSame f (power_of q k) × IsKept f) }
{
    let mut all = Frac::one();
    for _ in 0..k {
        all = match all.mul(&q) {
            Some(next) => next,
            None => return None,
        };
    }
    Some(all)
}

/// The first over the second, and 0 where that is 0; None where it passes 2^58.
fn quotient(q: Frac, r: Frac) -> Option<Frac>
    ensures { MatchOption result (IsWide (quotient_of q r))
        (λ f. IsSame f (quotient_of q r) × IsKept f) }
{
    if r.num() == 0 {
        return Some(kept(Frac::zero()));
    }
    Frac::new(crossed(q, r), crossed(r, q))
}

/// The numerator of the first over the product of the two denominators.
fn crossed(q: Frac, r: Frac) -> i128
    ensures { result ≡ cross q r }
{
    product(q.num(), r.den())
}

/// The product of two parts at 128 bits.
fn product(a: i64, b: i64) -> i128
    ensures { result ≡ a *ℤ b }
{
    a as i128 * b as i128
}

/// Whether the relation holds between two values.
fn compares(rel: Rel, a: Frac, b: Frac) -> bool
    ensures { result ≡ holds rel a b }
{
    let order = a.compare(&b);
    match rel {
        Rel::Eq => order == Ordering::Equal,
        Rel::Ne => order != Ordering::Equal,
        Rel::Lt => order == Ordering::Less,
        Rel::Le => order != Ordering::Greater,
        Rel::Gt => order == Ordering::Greater,
        Rel::Ge => order != Ordering::Less,
    }
}
