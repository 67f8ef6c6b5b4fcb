ghost use Rattle.std.specs.Prelude.{◌≡◌, MatchBool};
ghost use Rattle.theory_meaning.specs.Tree.{claims_from};
ghost use Rattle.theory_lowering.specs.LoweringLimits.{IsListedExpr, IsListedClaim, AreListedClaims, AreListed};
ghost use Rattle.theory_syntax.specs.Plain.{expr_of, claim_of as tree_of, claims_of};

use crate::quotients::place;
use theory_points::Name;
use theory_syntax::{Claim, Expr, Sentence};

/// Whether each name that occurs in a sentence is listed, as lowering requires.
pub fn is_listed(sentence: &Sentence) -> bool
    ensures { MatchBool result
        (AreListed sentence.now.symbols (claims_of sentence.now.conjuncts.items))
        (¬ AreListed sentence.now.symbols (claims_of sentence.now.conjuncts.items)) }
{
    claims_are_listed(sentence.symbols.as_slice(), &sentence.conjuncts)
}

#[cycle(listed)]
fn claim_is_listed(names: &[Name], claim: &Claim) -> bool
    ensures { MatchBool result (IsListedClaim names.now (tree_of claim.now))
        (¬ IsListedClaim names.now (tree_of claim.now)) }
{
    match claim {
        Claim::True | Claim::False => true,
        Claim::Atom(u, _, v) => expr_is_listed(names, u) && expr_is_listed(names, v),
        Claim::Not(c) => claim_is_listed(names, c),
        Claim::And(cs) | Claim::Or(cs) => claims_are_listed(names, cs),
        Claim::Implies(a, b) | Claim::Iff(a, b) => {
            claim_is_listed(names, a) && claim_is_listed(names, b)
        }
    }
}

#[cycle(listed)]
fn claims_are_listed(names: &[Name], claims: &[Claim]) -> bool
    ensures { MatchBool result (AreListedClaims names.now (claims_from (claims_of claims.now)))
        (¬ AreListedClaims names.now (claims_from (claims_of claims.now))) }
{
    for claim in claims {
        if !claim_is_listed(names, claim) {
            return false;
        }
    }
    true
}

fn expr_is_listed(names: &[Name], expr: &Expr) -> bool
    ensures { MatchBool result (IsListedExpr names.now (expr_of expr.now))
        (¬ IsListedExpr names.now (expr_of expr.now)) }
{
    match expr {
        Expr::Num(_) => true,
        Expr::Sym(name) => place(names, name) < names.len(),
        Expr::Sum(u, v) | Expr::Diff(u, v) | Expr::Prod(u, v) | Expr::Quot(u, v) => {
            expr_is_listed(names, u) && expr_is_listed(names, v)
        }
        Expr::Neg(u) | Expr::Pow(u, _) => expr_is_listed(names, u),
    }
}
