//! Sentences as the product has them.

ghost use Rattle.std.specs.Prelude.{◌≤◌, length, IfOk};
ghost use Rattle.theory_meaning.specs.Point.{AreDistinct};

use crate::conditions::Condition;
use crate::conjuncts::{Conjunct, Joint, Plain};
use crate::sums::{Sum, Term};
use std::alloc::Global;
use theory_points::{Frac, Name, Names, NoMemory};
use theory_syntax::{Claim, Claims, Expr, Sentence};

const NAMES: [&[u8]; 4] = [b"x", b"y", b"z", b"w"];

fn boxed(alloc: Global, expr: Expr) -> Result<Box<Expr>, NoMemory> {
    Ok(Box::new(alloc, expr)?)
}

fn name(alloc: Global, x: u8) -> Result<Name, NoMemory> {
    Name::from_slice(alloc, NAMES[(x % 4) as usize])
}

fn symbol(alloc: Global, x: u8) -> Result<Expr, NoMemory> {
    Ok(Expr::Sym(name(alloc, x)?))
}

fn number(n: u64) -> Expr {
    Expr::Num(Frac::new(i128::from(n), 1).unwrap_or(Frac::zero()))
}

/// A multiple, or the expression itself for 1.
fn times(alloc: Global, n: u64, expr: Expr) -> Result<Expr, NoMemory> {
    if n == 1 {
        return Ok(expr);
    }
    Ok(Expr::Prod(boxed(alloc, number(n))?, boxed(alloc, expr)?))
}

fn product(alloc: Global, x: u8, y: u8) -> Result<Expr, NoMemory> {
    let first = boxed(alloc, symbol(alloc, x)?)?;
    if x == y {
        return Ok(Expr::Pow(first, 2));
    }
    Ok(Expr::Prod(first, boxed(alloc, symbol(alloc, y)?)?))
}

/// A term without the sign of its coefficient.
fn magnitude(alloc: Global, term: &Term) -> Result<Expr, NoMemory> {
    let n = term.coefficient.unsigned_abs();
    match (term.first, term.second) {
        (None, None) => Ok(number(n)),
        (Some(x), None) | (None, Some(x)) => times(alloc, n, symbol(alloc, x)?),
        (Some(x), Some(y)) => times(alloc, n, product(alloc, x, y)?),
    }
}

/// One more term behind what stands before it.
fn with_term(alloc: Global, before: Option<Expr>, term: &Term) -> Result<Expr, NoMemory> {
    let next = boxed(alloc, magnitude(alloc, term)?)?;
    match before {
        Some(expr) if term.coefficient < 0 => Ok(Expr::Diff(boxed(alloc, expr)?, next)),
        Some(expr) => Ok(Expr::Sum(boxed(alloc, expr)?, next)),
        None if term.coefficient < 0 => Ok(Expr::Neg(next)),
        None => Ok(Box::into_inner(next)),
    }
}

fn expr(alloc: Global, sum: &Sum) -> Result<Expr, NoMemory> {
    let mut all = None;
    for term in sum {
        if term.coefficient != 0 {
            all = Some(with_term(alloc, all, term)?);
        }
    }
    Ok(all.unwrap_or(number(0)))
}

fn left(alloc: Global, condition: &Condition) -> Result<Expr, NoMemory> {
    let top = expr(alloc, &condition.left)?;
    match &condition.below {
        Some(sum) => Ok(Expr::Quot(boxed(alloc, top)?, boxed(alloc, expr(alloc, sum)?)?)),
        None => Ok(top),
    }
}

fn atom(alloc: Global, condition: &Condition) -> Result<Claim, NoMemory> {
    let left = left(alloc, condition)?;
    Ok(Claim::Atom(left, condition.rel, expr(alloc, &condition.right)?))
}

fn not(alloc: Global, claim: Claim) -> Result<Claim, NoMemory> {
    Ok(Claim::Not(Box::new(alloc, claim)?))
}

fn two(alloc: Global, first: Claim, second: Claim) -> Result<Claims, NoMemory> {
    let mut all = Vec::new(alloc);
    all.push(first)?;
    all.push(second)?;
    Ok(all)
}

fn joined(alloc: Global, joint: Joint, a: Claim, b: Claim) -> Result<Claim, NoMemory> {
    match joint {
        Joint::And => Ok(Claim::And(two(alloc, a, b)?)),
        Joint::Or => Ok(Claim::Or(two(alloc, a, b)?)),
        Joint::Implies => Ok(Claim::Implies(Box::new(alloc, a)?, Box::new(alloc, b)?)),
        Joint::Iff => Ok(Claim::Iff(Box::new(alloc, a)?, Box::new(alloc, b)?)),
        Joint::NotAnd => not(alloc, Claim::And(two(alloc, a, b)?)),
        Joint::Neither => not(alloc, Claim::Or(two(alloc, a, b)?)),
    }
}

fn claim(alloc: Global, conjunct: &Conjunct) -> Result<Claim, NoMemory> {
    match conjunct {
        Conjunct::One(true, a) => atom(alloc, a),
        Conjunct::One(false, a) => not(alloc, atom(alloc, a)?),
        Conjunct::Two(joint, a, b) => joined(alloc, *joint, atom(alloc, a)?, atom(alloc, b)?),
    }
}

fn claims(alloc: Global, conjuncts: &[Conjunct]) -> Result<Claims, NoMemory> {
    let mut all = Vec::new(alloc);
    for conjunct in conjuncts {
        all.push(claim(alloc, conjunct)?)?;
    }
    Ok(all)
}

/// The names of the symbols.
pub fn names(alloc: Global) -> Result<Names, NoMemory>
    ensures few { IfOk result (λ ns. length ns ≤ 32) }
    ensures distinct { IfOk result (λ ns. AreDistinct ns) }
{
    let mut names = Names::new(alloc);
    names.push(Name::from_slice(alloc, b"x")?)?;
    names.push(Name::from_slice(alloc, b"y")?)?;
    names.push(Name::from_slice(alloc, b"z")?)?;
    names.push(Name::from_slice(alloc, b"w")?)?;
    Ok(names)
}

/// The first name, or the first two.
pub fn first_names(alloc: Global, both: bool) -> Result<Names, NoMemory>
    ensures { IfOk result (λ ns. AreDistinct ns) }
{
    let mut names = Names::new(alloc);
    names.push(Name::from_slice(alloc, b"x")?)?;
    if both {
        names.push(Name::from_slice(alloc, b"y")?)?;
    }
    Ok(names)
}

/// The sentence of conjuncts.
pub fn sentence(alloc: Global, plain: &Plain) -> Result<Sentence, NoMemory>
    ensures few { IfOk result (λ s. length s.symbols ≤ 32) }
    ensures distinct { IfOk result (λ s. AreDistinct s.symbols) }
{
    let conjuncts = claims(alloc, &plain.conjuncts)?;
    let symbols = names(alloc)?;
    Ok(Sentence { conjuncts, symbols })
}
