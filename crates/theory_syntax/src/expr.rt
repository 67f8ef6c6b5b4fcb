use theory_points::{Frac, Name};

/// An expression over names.
#[derive(Drop)]
pub enum Expr {
    /// A number, never negative in a text: a minus sign is a node of its own.
    Num(Frac),
    /// A declared name, or a dotted one for a slope or a shift.
    Sym(Name),
    Sum(Box<Expr>, Box<Expr>),
    Diff(Box<Expr>, Box<Expr>),
    Neg(Box<Expr>),
    Prod(Box<Expr>, Box<Expr>),
    /// A power with an exponent from 1 to 8.
    Pow(Box<Expr>, u8),
    /// A quotient; its value is 0 where the divisor is 0.
    Quot(Box<Expr>, Box<Expr>),
}
