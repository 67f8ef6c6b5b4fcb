ghost use Rattle.std.specs.Prelude.{◌≡◌, IfOk, map, Option};
ghost use Rattle.theory_syntax.specs.Plain.{expr_of, claim_of, claims_of, line_of};

use crate::claim::{Claim, Claims};
use crate::expr::Expr;
use crate::line::Line;
use std::alloc::Global;
use theory_points::NoMemory;

impl Expr {
    /// An equal expression.
    pub fn copy(&self, alloc: Global) -> Result<Expr, NoMemory>
        ensures { IfOk result (λ e. expr_of e ≡ expr_of self.now) }
    {
        Ok(match self {
            Expr::Num(q) => Expr::Num(*q),
            Expr::Sym(name) => Expr::Sym(name.copy(alloc)?),
            Expr::Sum(u, v) => {
                Expr::Sum(
                    Box::new(alloc, u.copy(alloc)?)?,
                    Box::new(alloc, v.copy(alloc)?)?,
                )
            }
            Expr::Diff(u, v) => {
                Expr::Diff(
                    Box::new(alloc, u.copy(alloc)?)?,
                    Box::new(alloc, v.copy(alloc)?)?,
                )
            }
            Expr::Neg(u) => Expr::Neg(Box::new(alloc, u.copy(alloc)?)?),
            Expr::Prod(u, v) => {
                Expr::Prod(
                    Box::new(alloc, u.copy(alloc)?)?,
                    Box::new(alloc, v.copy(alloc)?)?,
                )
            }
            Expr::Pow(u, k) => Expr::Pow(Box::new(alloc, u.copy(alloc)?)?, *k),
            Expr::Quot(u, v) => {
                Expr::Quot(
                    Box::new(alloc, u.copy(alloc)?)?,
                    Box::new(alloc, v.copy(alloc)?)?,
                )
            }
        })
    }
}

impl Claim {
    /// An equal claim.
    #[cycle(copy)]
    pub fn copy(&self, alloc: Global) -> Result<Claim, NoMemory>
        ensures { IfOk result (λ c. claim_of c ≡ claim_of self.now) }
    {
        Ok(match self {
            Claim::True => Claim::True,
            Claim::False => Claim::False,
            Claim::Atom(u, rel, v) => Claim::Atom(u.copy(alloc)?, *rel, v.copy(alloc)?),
            Claim::Not(c) => Claim::Not(Box::new(alloc, c.copy(alloc)?)?),
            Claim::And(cs) => Claim::And(copy_all(alloc, cs)?),
            Claim::Or(cs) => Claim::Or(copy_all(alloc, cs)?),
            Claim::Implies(a, b) => {
                Claim::Implies(
                    Box::new(alloc, a.copy(alloc)?)?,
                    Box::new(alloc, b.copy(alloc)?)?,
                )
            }
            Claim::Iff(a, b) => {
                Claim::Iff(
                    Box::new(alloc, a.copy(alloc)?)?,
                    Box::new(alloc, b.copy(alloc)?)?,
                )
            }
        })
    }
}

/// Equal claims in the same order.
#[cycle(copy)]
fn copy_all(alloc: Global, claims: &[Claim]) -> Result<Claims, NoMemory>
    ensures { IfOk result (λ cs. claims_of cs.items ≡ claims_of claims.now) }
{
    let mut copies = Vec::new(alloc);
    for claim in claims {
        copies.push(claim.copy(alloc)?)?;
    }
    Ok(copies)
}

impl Line {
    /// An equal line.
    pub fn copy(&self, alloc: Global) -> Result<Line, NoMemory>
        ensures { IfOk result (λ line. line_of line ≡ line_of self.now) }
    {
        Ok(match self {
            Line::Model(name) => Line::Model(name.copy(alloc)?),
            Line::Var(name) => Line::Var(name.copy(alloc)?),
            Line::Param(name) => Line::Param(name.copy(alloc)?),
            Line::Fun(name, arguments) => Line::Fun(name.copy(alloc)?, arguments.copy(alloc)?),
            Line::Eq(label, u, v) => {
                Line::Eq(label.copy(alloc)?, u.copy(alloc)?, v.copy(alloc)?)
            }
            Line::Assume(label, claim) => Line::Assume(label.copy(alloc)?, claim.copy(alloc)?),
            Line::Claim(label, shift, claim) => {
                Line::Claim(
                    label.copy(alloc)?,
                    copy_shift(alloc, shift)?,
                    claim.copy(alloc)?,
                )
            }
        })
    }
}

fn copy_shift(
    alloc: Global,
    shift: &Option<theory_points::Name>,
) -> Result<Option<theory_points::Name>, NoMemory>
    ensures { IfOk result (λ s. s ≡ shift.now) }
{
    match shift {
        Some(name) => Ok(Some(name.copy(alloc)?)),
        None => Ok(None),
    }
}
