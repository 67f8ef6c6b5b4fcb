ghost use Rattle.std.specs.Prelude.{◌≢◌, ◌↔◌, [], IsTrue};
ghost use Rattle.theory_meaning.specs.Divisors.{divisors_of_expr, divisors_of_claim, divisors_of_claims, divisors_of_line};
ghost use Rattle.theory_syntax.specs.Plain.{expr_of, claim_of, members_of, line_of};

use crate::claim::Claim;
use crate::expr::Expr;
use crate::line::Line;

impl Line {
    /// Whether a quotient stands in the line, at any depth.
    pub fn divides(&self) -> bool
        ensures { IsTrue result ↔ (divisors_of_line (line_of self.now) ≢ []) }
    {
        match self {
            Line::Model(_) => false,
            Line::Var(_) => false,
            Line::Param(_) => false,
            Line::Fun(_, _) => false,
            Line::Eq(_, u, v) => expr_divides(u) || expr_divides(v),
            Line::Assume(_, c) => claim_divides(c),
            Line::Claim(_, _, c) => claim_divides(c),
        }
    }
}

/// Whether a quotient stands in a claim.
#[cycle(claim_divides)]
fn claim_divides(claim: &Claim) -> bool
    ensures { IsTrue result ↔ (divisors_of_claim (claim_of claim.now) ≢ []) }
{
    match claim {
        Claim::True => false,
        Claim::False => false,
        Claim::Atom(u, _, v) => expr_divides(u) || expr_divides(v),
        Claim::Not(c) => claim_divides(c),
        Claim::And(cs) => some_divides(cs),
        Claim::Or(cs) => some_divides(cs),
        Claim::Implies(a, b) => claim_divides(a) || claim_divides(b),
        Claim::Iff(a, b) => claim_divides(a) || claim_divides(b),
    }
}

/// Whether a quotient stands in some claim of a list.
#[cycle(claim_divides)]
fn some_divides(claims: &[Claim]) -> bool
    ensures { IsTrue result ↔ (divisors_of_claims (members_of claims.now) ≢ []) }
{
    for claim in claims {
        if claim_divides(claim) {
            return true;
        }
    }
    false
}

/// Whether a quotient stands in an expression.
fn expr_divides(expr: &Expr) -> bool
    ensures { IsTrue result ↔ (divisors_of_expr (expr_of expr.now) ≢ []) }
{
    match expr {
        Expr::Num(_) => false,
        Expr::Sym(_) => false,
        Expr::Sum(u, v) => expr_divides(u) || expr_divides(v),
        Expr::Diff(u, v) => expr_divides(u) || expr_divides(v),
        Expr::Neg(u) => expr_divides(u),
        Expr::Prod(u, v) => expr_divides(u) || expr_divides(v),
        Expr::Pow(u, _) => expr_divides(u),
        Expr::Quot(_, _) => true,
    }
}
