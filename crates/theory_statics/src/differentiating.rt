ghost use Rattle.std.specs.Prelude.{◌≡◌, ◌<◌, ◌-◌, ◌∷◌, ◌++◌, IfOk, option_map};
ghost use Rattle.theory_meaning.specs.Declarations.{declared_in};
ghost use Rattle.theory_meaning.specs.Fraction.{IsSame};
ghost use Rattle.theory_meaning.specs.Point.{Point};
ghost use Rattle.theory_meaning.specs.Slope.{slope_of};
ghost use Rattle.theory_meaning.specs.Tree.{symbol};
ghost use Rattle.theory_meaning.specs.Truth.{value_of};
ghost use Rattle.theory_derivative.specs.Derivative as written;
ghost use Rattle.theory_syntax.specs.Plain.{expr_of, lines_of};
ghost use Rattle.theory_statics.specs.Plain.{declared_of};

use crate::declaring::{Declared, declared_as};
use crate::writing::{counted, is_zero, minus, neg, over, plus, times};
use std::alloc::Global;
use theory_model::{Model, text_of};
use theory_points::{Bytes, Name, NoMemory};
use theory_syntax::{Expr, Numbered};

/// The written derivative of an expression along a parameter, by what the model declares.
pub fn total_derivative(
    alloc: Global,
    expr: &Expr,
    shift: &Name,
    model: &Model,
) -> Result<Expr, NoMemory>
    ensures written { IfOk result (λ e. expr_of e
        ≡ written.derivative (lines_of model.now) shift.now (expr_of expr.now)) }

    // At every point its value is the slope.
    ensures slope { IfOk result (λ e. (p : Point) → IsSame (value_of (expr_of e) p)
        (slope_of (lines_of model.now) shift.now (expr_of expr.now) p)) }
{
    derivative(alloc, text_of(model).as_slice(), shift, expr)
}

/// The same by what these lines declare.
pub fn derivative(
    alloc: Global,
    lines: &[Numbered],
    shift: &Name,
    expr: &Expr,
) -> Result<Expr, NoMemory>
    ensures { IfOk result (λ e. expr_of e
        ≡ written.derivative (lines_of lines.now) shift.now (expr_of expr.now)) }
{
    match expr {
        Expr::Num(_) => Ok(counted(0)),
        Expr::Sym(name) => of_name(alloc, lines, shift, name),
        Expr::Sum(u, v) => {
            let left = derivative(alloc, lines, shift, u)?;
            let right = derivative(alloc, lines, shift, v)?;
            plus(alloc, left, right)
        }
        Expr::Diff(u, v) => {
            let left = derivative(alloc, lines, shift, u)?;
            let right = derivative(alloc, lines, shift, v)?;
            minus(alloc, left, right)
        }
        Expr::Neg(u) => neg(alloc, derivative(alloc, lines, shift, u)?),
        Expr::Prod(u, v) => {
            let left = derivative(alloc, lines, shift, u)?;
            let right = derivative(alloc, lines, shift, v)?;
            of_product(alloc, u, v, left, right)
        }
        Expr::Pow(u, k) => of_power(alloc, u, *k, derivative(alloc, lines, shift, u)?),
        Expr::Quot(u, v) => {
            let left = derivative(alloc, lines, shift, u)?;
            let right = derivative(alloc, lines, shift, v)?;
            of_quotient(alloc, u, v, left, right)
        }
    }
}

/// The derivative of `u` times `v`, whose derivatives are `du` and `dv`.
fn of_product(alloc: Global, u: &Expr, v: &Expr, du: Expr, dv: Expr) -> Result<Expr, NoMemory>
    ensures { IfOk result (λ e. expr_of e
        ≡ written.of_product (expr_of u.now) (expr_of v.now) (expr_of du) (expr_of dv)) }
{
    let left = times_copy(alloc, du, v)?;
    let right = copy_times(alloc, u, dv)?;
    plus(alloc, left, right)
}

/// The derivative of `u` over `v`; the divisor is copied only where the result holds it.
fn of_quotient(alloc: Global, u: &Expr, v: &Expr, du: Expr, dv: Expr) -> Result<Expr, NoMemory>
    ensures { IfOk result (λ e. expr_of e
        ≡ written.of_quotient (expr_of u.now) (expr_of v.now) (expr_of du) (expr_of dv)) }
{
    let left = times_copy(alloc, du, v)?;
    let right = copy_times(alloc, u, dv)?;
    let top = minus(alloc, left, right)?;
    if is_zero(&top) {
        return Ok(counted(0));
    }
    let bottom = times(alloc, v.copy(alloc)?, v.copy(alloc)?)?;
    over(alloc, top, bottom)
}

/// The derivative of `u` to the power `k`, where that of `u` is `du`.
fn of_power(alloc: Global, u: &Expr, k: u8, du: Expr) -> Result<Expr, NoMemory>
    ensures { IfOk result (λ e. expr_of e ≡ written.of_power (expr_of u.now) k (expr_of du)) }
{
    match k {
        0 => Ok(counted(0)),
        1 => Ok(du),
        _ => of_high_power(alloc, u, k, du),
    }
}

/// The same from the power 2 on; `u` is copied only where the result holds it.
fn of_high_power(alloc: Global, u: &Expr, k: u8, du: Expr) -> Result<Expr, NoMemory>
    requires { 1 < k }
    ensures { IfOk result (λ e. expr_of e ≡ written.times (written.times (written.counted k)
        (written.raised (expr_of u.now) (k - 1 - 1))) (expr_of du)) }
{
    if is_zero(&du) {
        return Ok(counted(0));
    }
    let front = times(alloc, counted(k), raised(alloc, u, k - 1)?)?;
    times(alloc, front, du)
}

/// The power of `u` to `k` from 1, which is `u` for 1.
fn raised(alloc: Global, u: &Expr, k: u8) -> Result<Expr, NoMemory>
    requires { 0 < k }
    ensures { IfOk result (λ e. expr_of e ≡ written.raised (expr_of u.now) (k - 1)) }
{
    if k == 1 {
        return u.copy(alloc);
    }
    Ok(Expr::Pow(Box::new(alloc, u.copy(alloc)?)?, k))
}

/// The product with an expression, which is copied only where the result may hold it.
fn times_copy(alloc: Global, a: Expr, b: &Expr) -> Result<Expr, NoMemory>
    ensures { IfOk result (λ e. expr_of e ≡ written.times (expr_of a) (expr_of b.now)) }
{
    if is_zero(&a) {
        return Ok(counted(0));
    }
    times(alloc, a, b.copy(alloc)?)
}

/// The same with the copied factor first.
fn copy_times(alloc: Global, a: &Expr, b: Expr) -> Result<Expr, NoMemory>
    ensures { IfOk result (λ e. expr_of e ≡ written.times (expr_of a.now) (expr_of b)) }
{
    if is_zero(&b) {
        return Ok(counted(0));
    }
    times(alloc, a.copy(alloc)?, b)
}

/// The derivative of a name.
fn of_name(alloc: Global, lines: &[Numbered], shift: &Name, name: &Name) -> Result<Expr, NoMemory>
    ensures { IfOk result (λ e. expr_of e ≡ written.of_name
        (declared_in (lines_of lines.now) name.now) (lines_of lines.now) shift.now name.now) }
{
    match declared_as(lines, name) {
        Some(Declared::Function(arguments)) => {
            of_arguments(alloc, lines, shift, name, arguments.as_slice())
        }
        kind => of_plain(alloc, kind, shift, name),
    }
}

/// The derivative of a variable or of a parameter; of any other name 0.
fn of_plain(
    alloc: Global,
    kind: Option<Declared<'_>>,
    shift: &Name,
    name: &Name,
) -> Result<Expr, NoMemory>
    ensures { IfOk result (λ e. expr_of e
        ≡ written.of_plain (option_map declared_of kind.entry) shift.now name.now) }
{
    match kind {
        Some(Declared::Variable) => dotted(alloc, b"d".as_slice(), name.as_slice()),
        Some(Declared::Parameter) => Ok(if name.is_same(shift) {
            counted(1)
        } else {
            counted(0)
        }),
        _ => Ok(counted(0)),
    }
}

/// The sum over the arguments of a function, from the left.
fn of_arguments(
    alloc: Global,
    lines: &[Numbered],
    shift: &Name,
    function: &Name,
    arguments: &[Name],
) -> Result<Expr, NoMemory>
    ensures { IfOk result (λ e. expr_of e ≡ written.of_arguments (lines_of lines.now) shift.now
        function.now (written.counted 0) arguments.now) }
{
    let mut all = counted(0);
    for argument in arguments {
        let next = of_argument(alloc, lines, shift, function, argument)?;
        all = plus(alloc, all, next)?;
    }
    Ok(all)
}

/// The slope of a function in an argument, times the argument's derivative.
fn of_argument(
    alloc: Global,
    lines: &[Numbered],
    shift: &Name,
    function: &Name,
    argument: &Name,
) -> Result<Expr, NoMemory>
    ensures { IfOk result (λ e. expr_of e
        ≡ written.of_argument (lines_of lines.now) shift.now function.now argument.now) }
{
    let slope = dotted(alloc, function.as_slice(), argument.as_slice())?;
    let own = of_plain(alloc, declared_as(lines, argument), shift, argument)?;
    times(alloc, slope, own)
}

/// The symbol of the two joined by a dot.
fn dotted(alloc: Global, front: &[u8], back: &[u8]) -> Result<Expr, NoMemory>
    ensures { IfOk result (λ e. expr_of e ≡ symbol (front.now ++ 46 ∷ back.now)) }
{
    let mut bytes = Bytes::from_slice(alloc, front)?;
    bytes.extend(b".".as_slice())?;
    bytes.extend(back)?;
    Ok(Expr::Sym(Name::from_slice(alloc, bytes.as_slice())?))
}
