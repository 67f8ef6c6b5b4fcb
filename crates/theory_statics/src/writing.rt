ghost use Rattle.std.specs.Prelude.{◌≡◌, IfOk, pos};
ghost use Rattle.theory_meaning.specs.Fraction.{whole};
ghost use Rattle.theory_derivative.specs.Derivative as written;
ghost use Rattle.theory_derivative.specs.Derivative.{is_number};
ghost use Rattle.theory_syntax.specs.Plain.{expr_of};

use std::alloc::Global;
use theory_points::{Frac, NoMemory};
use theory_syntax::Expr;

/// The sum, where a summand that is 0 is left out.
pub fn plus(alloc: Global, a: Expr, b: Expr) -> Result<Expr, NoMemory>
    ensures { IfOk result (λ e. expr_of e ≡ written.plus (expr_of a) (expr_of b)) }
{
    if is_zero(&a) {
        return Ok(b);
    }
    if is_zero(&b) {
        return Ok(a);
    }
    Ok(Expr::Sum(Box::new(alloc, a)?, Box::new(alloc, b)?))
}

/// The opposite; that of 0 is 0.
pub fn neg(alloc: Global, a: Expr) -> Result<Expr, NoMemory>
    ensures { IfOk result (λ e. expr_of e ≡ written.neg (expr_of a)) }
{
    if is_zero(&a) {
        return Ok(counted(0));
    }
    Ok(Expr::Neg(Box::new(alloc, a)?))
}

/// The difference, where 0 is left out on either side.
pub fn minus(alloc: Global, a: Expr, b: Expr) -> Result<Expr, NoMemory>
    ensures { IfOk result (λ e. expr_of e ≡ written.minus (expr_of a) (expr_of b)) }
{
    if is_zero(&b) {
        return Ok(a);
    }
    if is_zero(&a) {
        return neg(alloc, b);
    }
    Ok(Expr::Diff(Box::new(alloc, a)?, Box::new(alloc, b)?))
}

/// The product; 0 where a factor is 0, and a factor that is 1 is left out.
pub fn times(alloc: Global, a: Expr, b: Expr) -> Result<Expr, NoMemory>
    ensures { IfOk result (λ e. expr_of e ≡ written.times (expr_of a) (expr_of b)) }
{
    if is_zero(&a) || is_zero(&b) {
        return Ok(counted(0));
    }
    if is_one(&a) {
        return Ok(b);
    }
    if is_one(&b) {
        return Ok(a);
    }
    Ok(Expr::Prod(Box::new(alloc, a)?, Box::new(alloc, b)?))
}

/// The quotient; 0 where the top is 0.
pub fn over(alloc: Global, a: Expr, b: Expr) -> Result<Expr, NoMemory>
    ensures { IfOk result (λ e. expr_of e ≡ written.over (expr_of a) (expr_of b)) }
{
    if is_zero(&a) {
        return Ok(counted(0));
    }
    Ok(Expr::Quot(Box::new(alloc, a)?, Box::new(alloc, b)?))
}

/// A whole number.
pub fn counted(n: u8) -> Expr
    ensures { expr_of result ≡ written.counted n }
{
    Expr::Num(whole_fraction(n))
}

fn whole_fraction(n: u8) -> Frac
    ensures { result ≡ whole (pos n) }
{
    match Frac::new(i128::from(n), 1) {
        Some(fraction) => fraction,
        None => unreachable!(),
    }
}

/// Whether the expression is a node of the number 0.
pub fn is_zero(expr: &Expr) -> bool
    ensures { result ≡ is_number 0 (expr_of expr.now) }
{
    match expr {
        Expr::Num(q) => q.num() == 0,
        Expr::Sym(_) => false,
        Expr::Sum(_, _) => false,
        Expr::Diff(_, _) => false,
        Expr::Neg(_) => false,
        Expr::Prod(_, _) => false,
        Expr::Pow(_, _) => false,
        Expr::Quot(_, _) => false,
    }
}

/// Whether the expression is a node of the number 1.
fn is_one(expr: &Expr) -> bool
    ensures { result ≡ is_number 1 (expr_of expr.now) }
{
    match expr {
        Expr::Num(q) => q.num() == q.den(),
        Expr::Sym(_) => false,
        Expr::Sum(_, _) => false,
        Expr::Diff(_, _) => false,
        Expr::Neg(_) => false,
        Expr::Prod(_, _) => false,
        Expr::Pow(_, _) => false,
        Expr::Quot(_, _) => false,
    }
}
