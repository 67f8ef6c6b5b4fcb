ghost use Rattle.std.specs.Prelude.{◌≡◌, IfSome};
ghost use Rattle.std.specs.Str.{bytes_eq};
ghost use Rattle.theory_meaning.specs.Point.{value_at};
ghost use Rattle.theory_meaning.specs.Truth.{value_of};
ghost use Rattle.theory_meaning.specs.Slow.{number_of, point_of, expr_of};

use crate::slow::fractions::{Number, difference, opposite, power, product, sum};

/// An expression over names, which are lists of bytes.
#[derive(Drop)]
pub enum Expr {
    Number(Number),
    Symbol(Vec<u8>),
    Sum(Box<Expr>, Box<Expr>),
    Difference(Box<Expr>, Box<Expr>),
    Opposite(Box<Expr>),
    Product(Box<Expr>, Box<Expr>),
    /// A power with an exponent that may be 0.
    Power(Box<Expr>, u8),
}

/// One name of a point with its value; a point is a slice of these.
#[derive(Drop)]
pub struct Entry {
    pub name: Vec<u8>,
    pub value: Number,
}

/// The value of the first entry of that name, and 0 where there is none.
fn value_among(point: &[Entry], name: &[u8]) -> Number
    ensures { number_of result ≡ value_at (point_of point.now) name.now }
{
    for entry in point {
        if is_named(entry, name) {
            return entry.value;
        }
    }
    Number { num: 0, less: 0 }
}

/// Whether the entry is of that name, byte by byte.
fn is_named(entry: &Entry, name: &[u8]) -> bool
    ensures { result ≡ bytes_eq entry.now.name.items name.now }
{
    entry.name.as_slice() == name
}

/// The value of an expression at a point; None where a part of it doesn't fit.
pub fn value(expr: &Expr, point: &[Entry]) -> Option<Number>
    ensures { IfSome result (λ v. number_of v ≡ value_of (expr_of expr.now) (point_of point.now)) }
{
    match expr {
        Expr::Number(number) => Some(*number),
        Expr::Symbol(name) => Some(value_among(point, name)),
        Expr::Sum(u, v) => sum(value(u, point)?, value(v, point)?),
        Expr::Difference(u, v) => difference(value(u, point)?, value(v, point)?),
        Expr::Opposite(u) => opposite(value(u, point)?),
        Expr::Product(u, v) => product(value(u, point)?, value(v, point)?),
        Expr::Power(u, k) => power(value(u, point)?, *k),
    }
}
