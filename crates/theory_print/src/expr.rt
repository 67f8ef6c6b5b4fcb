ghost use Rattle.std.specs.Prelude.{◌≡◌, ◌++◌, IfOk, OnOk};
ghost use Rattle.theory_grammar.specs.Printed.{is_term, is_factor, is_primary, is_power, is_divisor, begins_with_digit, round_unless, expr_text, sides_text};
ghost use Rattle.theory_syntax.specs.Plain.{expr_of};

use crate::parts::{add_fraction, add_number, add_relation, add_unless};
use std::alloc::Global;
use theory_points::{Bytes, NoMemory};
use theory_syntax::{Expr, Rel};

/// The printed form of an expression.
pub fn print_expr(alloc: Global, expr: &Expr) -> Result<Bytes, NoMemory>
    ensures { IfOk result (λ text. text ≡ expr_text (expr_of expr.now)) }
{
    let mut text = Bytes::new(alloc);
    add_expr(alloc, &mut text, expr)?;
    Ok(text)
}

/// Appends two sides with a relation between them.
pub fn add_sides(
    alloc: Global,
    text: &mut Bytes,
    left: &Expr,
    rel: Rel,
    right: &Expr,
) -> Result<(), NoMemory>
    ensures { OnOk result
        (text.new ≡ text.old ++ sides_text (expr_of left.now) rel (expr_of right.now)) }
{
    add_expr(alloc, text, left)?;
    add_relation(text, rel)?;
    add_expr(alloc, text, right)
}

// Appends an expression.
#[cycle(expr)]
fn add_expr(alloc: Global, text: &mut Bytes, expr: &Expr) -> Result<(), NoMemory>
    ensures { OnOk result (text.new ≡ text.old ++ expr_text (expr_of expr.now)) }
{
    match expr {
        Expr::Num(value) => add_fraction(alloc, text, value),
        Expr::Sym(name) => text.extend(name.as_slice()),
        Expr::Sum(u, v) => {
            add_expr(alloc, text, u)?;
            text.extend(b" + ")?;
            add_round(alloc, text, is_term(v), v)
        }
        Expr::Diff(u, v) => {
            add_expr(alloc, text, u)?;
            text.extend(b" - ")?;
            add_round(alloc, text, is_term(v), v)
        }
        Expr::Neg(u) => {
            text.extend(b"-")?;
            add_round(alloc, text, is_factor(u), u)
        }
        Expr::Prod(u, v) => {
            add_round(alloc, text, is_term(u), u)?;
            text.extend(b"*")?;
            add_round(alloc, text, is_factor(v), v)
        }
        Expr::Quot(u, v) => {
            add_round(alloc, text, is_term(u), u)?;
            text.extend(b"/")?;
            add_round(alloc, text, is_divisor(v), v)
        }
        Expr::Pow(u, k) => {
            add_round(alloc, text, is_primary(u), u)?;
            text.extend(b"^")?;
            add_number(alloc, text, u64::from(*k))
        }
    }
}

// Appends an expression, in round brackets unless the test holds.
#[cycle(expr)]
fn add_round(alloc: Global, text: &mut Bytes, bare: bool, expr: &Expr) -> Result<(), NoMemory>
    ensures { OnOk result
        (text.new ≡ text.old ++ round_unless bare (expr_text (expr_of expr.now))) }
{
    add_unless(text, bare, b"(")?;
    add_expr(alloc, text, expr)?;
    add_unless(text, bare, b")")
}

// Whether the expression stands as a term: no sum or difference.
fn is_term(expr: &Expr) -> bool
    ensures { result ≡ is_term (expr_of expr.now) }
{
    match expr {
        Expr::Sum(..) | Expr::Diff(..) => false,
        Expr::Prod(..) | Expr::Quot(..) => true,
        Expr::Num(_) | Expr::Sym(_) | Expr::Neg(_) | Expr::Pow(..) => true,
    }
}

// Whether it stands as a factor: no product or quotient either.
fn is_factor(expr: &Expr) -> bool
    ensures { result ≡ is_factor (expr_of expr.now) }
{
    match expr {
        Expr::Sum(..) | Expr::Diff(..) | Expr::Prod(..) | Expr::Quot(..) => false,
        Expr::Num(_) | Expr::Sym(_) | Expr::Neg(_) | Expr::Pow(..) => true,
    }
}

// Whether it stands as a primary: a name, or a whole number that isn't negative.
fn is_primary(expr: &Expr) -> bool
    ensures { result ≡ is_primary (expr_of expr.now) }
{
    match expr {
        Expr::Num(value) => value.den() == 1 && value.num() >= 0,
        Expr::Sym(_) => true,
        Expr::Sum(..) | Expr::Diff(..) | Expr::Neg(_) => false,
        Expr::Prod(..) | Expr::Quot(..) | Expr::Pow(..) => false,
    }
}

// Whether it stands as a divisor: a power that doesn't begin with a digit.
fn is_divisor(expr: &Expr) -> bool
    ensures { result ≡ is_divisor (expr_of expr.now) }
{
    is_power(expr) && !begins_with_digit(expr)
}

// Whether it stands as a power: a primary, or a power.
fn is_power(expr: &Expr) -> bool
    ensures { result ≡ is_power (expr_of expr.now) }
{
    match expr {
        Expr::Pow(..) => true,
        Expr::Num(_) | Expr::Sym(_) => is_primary(expr),
        Expr::Sum(..) | Expr::Diff(..) | Expr::Neg(_) | Expr::Prod(..) | Expr::Quot(..) => false,
    }
}

// Whether the printed form begins with a digit, which is told before it is written.
fn begins_with_digit(expr: &Expr) -> bool
    ensures { result ≡ begins_with_digit (expr_of expr.now) }
{
    match expr {
        Expr::Num(value) => value.num() >= 0,
        Expr::Sym(_) | Expr::Neg(_) => false,
        Expr::Sum(u, _) | Expr::Diff(u, _) => begins_with_digit(u),
        Expr::Prod(u, _) | Expr::Quot(u, _) => is_term(u) && begins_with_digit(u),
        Expr::Pow(u, _) => is_primary(u) && begins_with_digit(u),
    }
}
