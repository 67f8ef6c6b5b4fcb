ghost use Rattle.std.specs.Prelude.{◌≤◌, length, IfOk};
ghost use Rattle.theory_lowering.specs.RationalFunction.{RationalFunction};
ghost use Rattle.theory_lowering.specs.Lowered.{IsFormOf};
ghost use Rattle.theory_lowering.specs.LoweringLimits.{IsWideExpr, IsListedExpr};
ghost use Rattle.theory_poly.specs.Answers.{WideWhere};
ghost use Rattle.theory_syntax.specs.Plain.{expr_of};
ghost use Rattle.theory_lower.specs.Combined.{IsResultBy, IsBeyondBy, Combines, Opposes, Raises};

use crate::functions::RatFunction;
use crate::quotients::{constant, symbol};
use std::alloc::Global;
use theory_points::{Limit, Name};
use theory_syntax::Expr;

/// An operation on two rational functions.
#[derive(Clone, Copy, Debug, PartialEq, Eq)]
pub enum Operation {
    Sum,
    Difference,
    Product,
    Quotient,
}

/// The rational function of an expression, where a name is the symbol of its place in the list.
pub fn form(alloc: Global, names: &[Name], expr: &Expr) -> Result<RatFunction, Limit>
    requires few { length names.now ≤ 32 }
    requires listed { IsListedExpr names.now (expr_of expr.now) }
    ensures value { IfOk result (IsFormOf names.now (expr_of expr.now)) }
    ensures wide { WideWhere (IsWideExpr names.now (expr_of expr.now)) result }
{
    match expr {
        Expr::Num(number) => {
            let top = constant(alloc, number.num(), number.den())?;
            Ok(RatFunction::whole(alloc, top)?)
        }
        Expr::Sym(name) => {
            let top = symbol(alloc, names, name)?;
            Ok(RatFunction::whole(alloc, top)?)
        }
        Expr::Sum(u, v) => combined(
            alloc,
            Operation::Sum,
            form(alloc, names, u),
            form(alloc, names, v),
        ),
        Expr::Diff(u, v) => combined(
            alloc,
            Operation::Difference,
            form(alloc, names, u),
            form(alloc, names, v),
        ),
        Expr::Prod(u, v) => combined(
            alloc,
            Operation::Product,
            form(alloc, names, u),
            form(alloc, names, v),
        ),
        Expr::Quot(u, v) => combined(
            alloc,
            Operation::Quotient,
            form(alloc, names, u),
            form(alloc, names, v),
        ),
        Expr::Neg(u) => opposed(alloc, form(alloc, names, u)),
        Expr::Pow(u, exponent) => raised(alloc, form(alloc, names, u), *exponent),
    }
}

/// The operation on two results; the first fault where one has none.
pub fn combined(
    alloc: Global,
    operation: Operation,
    first: Result<RatFunction, Limit>,
    second: Result<RatFunction, Limit>,
) -> Result<RatFunction, Limit>
    ensures { Combines (IsResultBy operation) (IsBeyondBy operation) first second result }
{
    match first {
        Ok(a) => match second {
            Ok(b) => operated(alloc, operation, &a, &b),
            Err(limit) => Err(limit),
        },
        Err(limit) => Err(limit),
    }
}

fn operated(
    alloc: Global,
    operation: Operation,
    a: &RatFunction,
    b: &RatFunction,
) -> Result<RatFunction, Limit>
    ensures value { IfOk result (IsResultBy operation a.now b.now) }
    ensures wide { WideWhere (IsBeyondBy operation a.now b.now) result }
{
    match operation {
        Operation::Sum => a.add(alloc, false, b),
        Operation::Difference => a.add(alloc, true, b),
        Operation::Product => a.mul(alloc, b),
        Operation::Quotient => a.div(alloc, b),
    }
}

/// What is taken from 0; the fault where there is nothing to take.
fn opposed(alloc: Global, of: Result<RatFunction, Limit>) -> Result<RatFunction, Limit>
    ensures { Opposes of result }
{
    match of {
        Ok(a) => a.neg(alloc),
        Err(limit) => Err(limit),
    }
}

/// A power of what is there; the fault where nothing is.
fn raised(
    alloc: Global,
    base: Result<RatFunction, Limit>,
    exponent: u8,
) -> Result<RatFunction, Limit>
    ensures { Raises base exponent result }
{
    match base {
        Ok(a) => a.power(alloc, exponent),
        Err(limit) => Err(limit),
    }
}
