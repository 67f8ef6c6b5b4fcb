//! The slow program of `theory_meaning`: the truth of a claim at a point as it is defined.

use std::alloc::Global;
use theory_meaning::slow;
use theory_meaning::slow::{Entry, Number, truth};
use theory_points::{Bytes, Frac};
use theory_rows_method::fault::RowFault;
use theory_rows_method::pieces::{claim, frac};
use theory_rows_method::telling::told;
use theory_syntax::{Claim, Expr};

/// The truth of a claim at a point; `none` where a part of a value doesn't fit.
pub fn slow_truth(alloc: Global, field: &str, point: &str) -> Result<Bytes, RowFault> {
    let claim = slow_claim(alloc, &claim(alloc, field)?)?;
    let entries = entries(alloc, point)?;
    told(
        alloc,
        match truth(&claim, entries.as_slice()) {
            Some(true) => "true",
            Some(false) => "false",
            None => "none",
        },
    )
}

fn number(q: Frac) -> Result<Number, RowFault> {
    match u32::try_from(q.den() - 1) {
        Ok(less) => Ok(Number { num: q.num(), less }),
        Err(_) => Err(RowFault::Unreadable),
    }
}

/// A point as `x=1/2, y=-3`, entry by entry.
fn entries(alloc: Global, field: &str) -> Result<Vec<Entry>, RowFault> {
    let mut entries = Vec::new(alloc);
    for part in field.split(',') {
        if let Some((name, value)) = part.trim().split_once('=') {
            entries.push(Entry {
                name: Vec::from_slice(alloc, name.as_bytes())?,
                value: number(frac(value)?)?,
            })?;
        }
    }
    Ok(entries)
}

#[cycle(slow_expr)]
fn slow_expr(alloc: Global, expr: &Expr) -> Result<slow::Expr, RowFault> {
    Ok(match expr {
        Expr::Num(q) => slow::Expr::Number(number(*q)?),
        Expr::Sym(name) => slow::Expr::Symbol(Vec::from_slice(alloc, name.as_slice())?),
        Expr::Sum(u, v) => slow::Expr::Sum(side(alloc, u)?, side(alloc, v)?),
        Expr::Diff(u, v) => slow::Expr::Difference(side(alloc, u)?, side(alloc, v)?),
        Expr::Neg(u) => slow::Expr::Opposite(side(alloc, u)?),
        Expr::Prod(u, v) => slow::Expr::Product(side(alloc, u)?, side(alloc, v)?),
        Expr::Pow(u, k) => slow::Expr::Power(side(alloc, u)?, *k),
        Expr::Quot(_, _) => return Err(RowFault::Unreadable),
    })
}

#[cycle(slow_expr)]
fn side(alloc: Global, expr: &Expr) -> Result<Box<slow::Expr>, RowFault> {
    Ok(Box::new(alloc, slow_expr(alloc, expr)?)?)
}

#[cycle(slow_claim)]
fn slow_claim(alloc: Global, claim: &Claim) -> Result<slow::Claim, RowFault> {
    Ok(match claim {
        Claim::True => slow::Claim::Always,
        Claim::False => slow::Claim::Never,
        Claim::Atom(u, rel, v) => {
            slow::Claim::Atom(slow_expr(alloc, u)?, *rel, slow_expr(alloc, v)?)
        }
        Claim::Not(c) => slow::Claim::Negation(member(alloc, c)?),
        Claim::And(cs) => slow::Claim::Conjunction(members(alloc, cs)?),
        Claim::Or(cs) => slow::Claim::Disjunction(members(alloc, cs)?),
        Claim::Implies(a, b) => slow::Claim::Implication(member(alloc, a)?, member(alloc, b)?),
        Claim::Iff(a, b) => slow::Claim::Equivalence(member(alloc, a)?, member(alloc, b)?),
    })
}

#[cycle(slow_claim)]
fn member(alloc: Global, claim: &Claim) -> Result<Box<slow::Claim>, RowFault> {
    Ok(Box::new(alloc, slow_claim(alloc, claim)?)?)
}

#[cycle(slow_claim)]
fn members(alloc: Global, claims: &[Claim]) -> Result<Vec<slow::Claim>, RowFault> {
    let mut all = Vec::new(alloc);
    for claim in claims {
        all.push(slow_claim(alloc, claim)?)?;
    }
    Ok(all)
}
