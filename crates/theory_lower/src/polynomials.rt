ghost use Rattle.std.specs.Prelude.{◌≡◌, ◌≤◌, ◌<◌, ◌++◌, IfOk, OnOk, List, [], ◌∷◌, map, pos, int_lt, length, unsigned_abs, MatchOption, if◌then◌else◌};
ghost use Rattle.theory_meaning.specs.Fraction.{whole};
ghost use Rattle.theory_meaning.specs.Limits.{bound};
ghost use Rattle.theory_meaning.specs.Tree.{Expr as Tree, number, sum, difference, opposite, product};
ghost use Rattle.theory_lowering.specs.WrittenClaim.{small_power, power_factors, factors_of, product_from, multiple_of, term_of, sum_from, polynomial_of};
ghost use Rattle.theory_poly.specs.Kept.{IsKept};
ghost use Rattle.theory_syntax.specs.Plain.{expr_of};

use std::alloc::Global;
use theory_points::{Frac, Name, NoMemory};
use theory_poly::Term;
use theory_syntax::Expr;

/// The sum of the terms, with differences for negative coefficients.
pub fn polynomial(alloc: Global, names: &[Name], terms: &[Term]) -> Result<Expr, NoMemory>
    requires { IsKept terms.now }
    ensures { IfOk result (λ e. expr_of e ≡ polynomial_of names.now terms.now) }
{
    let mut all = None;
    for t in terms {
        let next = term(alloc, names, t)?;
        all = Some(added(alloc, all, next, t.coefficient < 0)?);
    }
    match all {
        Some(expr) => Ok(expr),
        None => Ok(Expr::Num(Frac::zero())),
    }
}

/// A sum with one more term, which is taken away where that is said.
fn added(alloc: Global, before: Option<Expr>, next: Expr, minus: bool) -> Result<Expr, NoMemory>
    ensures { IfOk result (λ e. MatchOption before
        (expr_of e ≡ (if minus then opposite (expr_of next) else expr_of next))
        (λ u. expr_of e ≡ (if minus then difference (expr_of u) (expr_of next)
        else sum (expr_of u) (expr_of next)))) }
{
    match before {
        None => {
            if minus {
                Ok(Expr::Neg(Box::new(alloc, next)?))
            } else {
                Ok(next)
            }
        }
        Some(expr) => {
            let left = Box::new(alloc, expr)?;
            let right = Box::new(alloc, next)?;
            if minus {
                Ok(Expr::Diff(left, right))
            } else {
                Ok(Expr::Sum(left, right))
            }
        }
    }
}

/// A term without its sign.
fn term(alloc: Global, names: &[Name], t: &Term) -> Result<Expr, NoMemory>
    requires { unsigned_abs t.now.coefficient ≤ bound }
    ensures { IfOk result (λ e. expr_of e ≡ term_of names.now t.now) }
{
    let all = factors(alloc, names, &t.powers)?;
    multiple(alloc, t.coefficient.unsigned_abs(), all)
}

/// The powers of the names in their order.
fn factors(alloc: Global, names: &[Name], powers: &[u8]) -> Result<Vec<Expr>, NoMemory>
    ensures { IfOk result (λ fs. map expr_of fs.items ≡ factors_of names.now powers.now) }
{
    let mut all = Vec::new(alloc);
    for i in 0..names.len().min(powers.len()) {
        push_power(alloc, &mut all, &names[i], powers[i])?;
    }
    Ok(all)
}

/// Adds a power of a name at the end: an exponent above 8 as the eighth power and the rest.
fn push_power(alloc: Global, all: &mut Vec<Expr>, name: &Name, exponent: u8) -> Result<(), NoMemory>
    ensures { OnOk result (map expr_of all.new.items
        ≡ map expr_of all.old.items ++ power_factors name.now exponent) }
{
    let mut rest = exponent;
    if exponent > 8 {
        all.push(power(alloc, name, 8)?)?;
        rest = exponent - 8;
    }
    if rest > 0 {
        all.push(power(alloc, name, rest)?)?;
    }
    Ok(())
}

/// A power of a name from 1, which is the name alone for 1.
fn power(alloc: Global, name: &Name, exponent: u8) -> Result<Expr, NoMemory>
    requires { 0 < exponent }
    ensures { IfOk result (λ e. small_power name.now exponent ≡ expr_of e ∷ []) }
{
    let base = Expr::Sym(name.copy(alloc)?);
    if exponent == 1 {
        return Ok(base);
    }
    Ok(Expr::Pow(Box::new(alloc, base)?, exponent))
}

/// A number times factors, where 1 is left out unless it stands alone.
fn multiple(alloc: Global, n: u64, factors: Vec<Expr>) -> Result<Expr, NoMemory>
    requires { n ≤ bound }
    ensures { IfOk result (λ e. expr_of e ≡ multiple_of n (map expr_of factors.items)) }
{
    let mut all = None;
    if n != 1 {
        all = Some(whole_number(n));
    }
    for factor in factors {
        all = Some(times(alloc, all, factor)?);
    }
    Ok(match all {
        Some(expr) => expr,
        None => whole_number(1),
    })
}

fn times(alloc: Global, before: Option<Expr>, factor: Expr) -> Result<Expr, NoMemory>
    ensures { IfOk result (λ e. MatchOption before (expr_of e ≡ expr_of factor)
        (λ u. expr_of e ≡ product (expr_of u) (expr_of factor))) }
{
    match before {
        None => Ok(factor),
        Some(expr) => {
            let left = Box::new(alloc, expr)?;
            let right = Box::new(alloc, factor)?;
            Ok(Expr::Prod(left, right))
        }
    }
}

fn whole_number(n: u64) -> Expr
    requires { n ≤ bound }
    ensures { expr_of result ≡ number (whole (pos n)) }
{
    Expr::Num(whole_fraction(n))
}

fn whole_fraction(n: u64) -> Frac
    requires { n ≤ bound }
    ensures { result ≡ whole (pos n) }
{
    match Frac::new(i128::from(n), 1) {
        Some(fraction) => fraction,
        None => Frac::zero(),
    }
}
