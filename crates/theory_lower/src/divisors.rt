ghost use Rattle.std.specs.Prelude.{◌≤◌, [], ◌∷◌, length, map, OnOk};
ghost use Rattle.theory_meaning.specs.Divisors.{divisors_of_expr, divisors_of_claim, divisors_of_claims};
ghost use Rattle.theory_meaning.specs.Tree.{claims_from};
ghost use Rattle.theory_lowering.specs.LoweringLimits.{IsWideExpr, IsWideClaim, IsWideAmong, IsListedExpr, IsListedClaim, AreListedClaims};
ghost use Rattle.theory_syntax.specs.Plain.{expr_of, claim_of as tree_of, claims_of};
ghost use Rattle.theory_signs.specs.Plain.{formula_of};
ghost use Rattle.theory_lower.specs.Lowering.{AddsNonzero, WideOnlyWhere};

use crate::conditions::{keep, nonzero};
use std::alloc::Global;
use theory_points::{Limit, Name};
use theory_signs::Formulas;
use theory_syntax::{Claim, Expr};

/// Adds the conditions that no divisor in the claims is 0, in reading order.
#[cycle(divisors)]
pub fn add_of_claims(
    alloc: Global,
    names: &[Name],
    claims: &[Claim],
    members: &mut Formulas,
) -> Result<(), Limit>
    requires few { length names.now ≤ 32 }
    requires listed { AreListedClaims names.now (claims_from (claims_of claims.now)) }
    ensures written { OnOk result (AddsNonzero names.now
        (divisors_of_claims (claims_from (claims_of claims.now)))
        (map formula_of members.old.items) (map formula_of members.new.items)) }
    ensures wide { WideOnlyWhere
        (IsWideAmong names.now (claims_from (claims_of claims.now))) result }
{
    for claim in claims {
        match add_of_claim(alloc, names, claim, members) {
            Ok(()) => {}
            Err(limit) => return Err(limit),
        }
    }
    Ok(())
}

#[cycle(divisors)]
fn add_of_claim(
    alloc: Global,
    names: &[Name],
    claim: &Claim,
    members: &mut Formulas,
) -> Result<(), Limit>
    requires few { length names.now ≤ 32 }
    requires listed { IsListedClaim names.now (tree_of claim.now) }
    ensures written { OnOk result (AddsNonzero names.now (divisors_of_claim (tree_of claim.now))
        (map formula_of members.old.items) (map formula_of members.new.items)) }
    ensures wide { WideOnlyWhere (IsWideClaim names.now (tree_of claim.now)) result }
{
    match claim {
        Claim::True | Claim::False => Ok(()),
        Claim::Atom(u, _, v) => match add_of_expr(alloc, names, u, members) {
            Ok(()) => add_of_expr(alloc, names, v, members),
            Err(limit) => Err(limit),
        },
        Claim::Not(c) => add_of_claim(alloc, names, c, members),
        Claim::And(cs) | Claim::Or(cs) => add_of_claims(alloc, names, cs, members),
        Claim::Implies(a, b) | Claim::Iff(a, b) => match add_of_claim(alloc, names, a, members) {
            Ok(()) => add_of_claim(alloc, names, b, members),
            Err(limit) => Err(limit),
        },
    }
}

fn add_of_expr(
    alloc: Global,
    names: &[Name],
    expr: &Expr,
    members: &mut Formulas,
) -> Result<(), Limit>
    requires few { length names.now ≤ 32 }
    requires listed { IsListedExpr names.now (expr_of expr.now) }
    ensures written { OnOk result (AddsNonzero names.now (divisors_of_expr (expr_of expr.now))
        (map formula_of members.old.items) (map formula_of members.new.items)) }
    ensures wide { WideOnlyWhere (IsWideExpr names.now (expr_of expr.now)) result }
{
    match expr {
        Expr::Num(_) | Expr::Sym(_) => Ok(()),
        Expr::Sum(u, v) | Expr::Diff(u, v) | Expr::Prod(u, v) => {
            match add_of_expr(alloc, names, u, members) {
                Ok(()) => add_of_expr(alloc, names, v, members),
                Err(limit) => Err(limit),
            }
        }
        Expr::Neg(u) | Expr::Pow(u, _) => add_of_expr(alloc, names, u, members),
        Expr::Quot(u, v) => match add_of_expr(alloc, names, u, members) {
            Ok(()) => match add_divisor(alloc, names, v, members) {
                Ok(()) => add_of_expr(alloc, names, v, members),
                Err(limit) => Err(limit),
            },
            Err(limit) => Err(limit),
        },
    }
}

/// Adds the condition of one divisor.
fn add_divisor(
    alloc: Global,
    names: &[Name],
    divisor: &Expr,
    members: &mut Formulas,
) -> Result<(), Limit>
    requires few { length names.now ≤ 32 }
    requires listed { IsListedExpr names.now (expr_of divisor.now) }
    ensures written { OnOk result (AddsNonzero names.now (expr_of divisor.now ∷ [])
        (map formula_of members.old.items) (map formula_of members.new.items)) }
    ensures wide { WideOnlyWhere (IsWideExpr names.now (expr_of divisor.now)) result }
{
    match nonzero(alloc, names, divisor) {
        Ok(formula) => Ok(keep(members, formula)?),
        Err(limit) => Err(limit),
    }
}
