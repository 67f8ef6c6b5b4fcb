ghost use Rattle.std.specs.Prelude.{◌≡◌, IfOk};
ghost use Rattle.theory_meaning.specs.Tree as plain;
ghost use Rattle.theory_line.specs.Exprs.{multiplied, summed};
ghost use Rattle.theory_syntax.specs.Plain.{expr_of};

use crate::front::{Addition, Multiplication};
use std::alloc::{AllocFailed, Global};
use theory_points::{Name, NoMemory};
use theory_syntax::Expr;

/// The name of these bytes.
pub fn symbol(alloc: Global, name: &[u8]) -> Result<Expr, NoMemory>
    ensures { IfOk result (λ e. expr_of e ≡ plain.symbol name.now) }
{
    Ok(Expr::Sym(Name::from_slice(alloc, name)?))
}

/// The sum of two expressions, or their difference.
pub fn sum(alloc: Global, how: Addition, left: Expr, right: Expr) -> Result<Expr, NoMemory>
    ensures { IfOk result (λ e. expr_of e ≡ summed how (expr_of left) (expr_of right)) }
{
    let left = Box::new(alloc, left)?;
    let right = Box::new(alloc, right)?;
    Ok(match how {
        Addition::Plus => Expr::Sum(left, right),
        Addition::Minus => Expr::Diff(left, right),
    })
}

/// The product of two expressions, or their quotient.
pub fn product(
    alloc: Global,
    how: Multiplication,
    left: Expr,
    right: Expr,
) -> Result<Expr, NoMemory>
    ensures { IfOk result (λ e. expr_of e ≡ multiplied how (expr_of left) (expr_of right)) }
{
    let left = Box::new(alloc, left)?;
    let right = Box::new(alloc, right)?;
    Ok(match how {
        Multiplication::Times => Expr::Prod(left, right),
        Multiplication::Over => Expr::Quot(left, right),
    })
}

pub fn opposite(alloc: Global, inner: Expr) -> Result<Expr, NoMemory>
    ensures { IfOk result (λ e. expr_of e ≡ plain.opposite (expr_of inner)) }
{
    Ok(Expr::Neg(Box::new(alloc, inner)?))
}

pub fn power(alloc: Global, base: Expr, exponent: u8) -> Result<Expr, NoMemory>
    ensures { IfOk result (λ e. expr_of e ≡ plain.power (expr_of base) exponent) }
{
    Ok(Expr::Pow(Box::new(alloc, base)?, exponent))
}
