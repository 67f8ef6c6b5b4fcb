//! Polynomials: written as expressions, printed in their fixed order, and the calls on them.

use crate::fault::RowFault;
use crate::pieces::{expression, frac, symbol};
use crate::telling::{add_whole, told};
use std::alloc::Global;
use theory_points::{Bytes, Limit, Name};
use theory_poly::{Poly, Term};
use theory_syntax::Expr;

/// The names of the symbols, in their order.
const NAMES: [&[u8]; 3] = [b"x", b"y", b"z"];

/// The polynomial that an expression with whole numbers is.
pub fn polynomial(alloc: Global, field: &str) -> Result<Poly, RowFault> {
    let expr = expression(alloc, field.trim())?;
    kept(value(alloc, &expr))
}

fn kept(found: Result<Poly, Limit>) -> Result<Poly, RowFault> {
    match found {
        Ok(poly) => Ok(poly),
        Err(_) => Err(RowFault::Unreadable),
    }
}

fn value(alloc: Global, expr: &Expr) -> Result<Poly, Limit> {
    match expr {
        Expr::Num(number) if number.den() == 1 => Ok(Poly::constant(alloc, number.num())?),
        Expr::Num(_) => Err(Limit::Wide),
        Expr::Sym(name) => symbol_of(alloc, name),
        Expr::Sum(u, v) => value(alloc, u)?.add(alloc, &value(alloc, v)?),
        Expr::Diff(u, v) => value(alloc, u)?.sub(alloc, &value(alloc, v)?),
        Expr::Prod(u, v) => value(alloc, u)?.mul(alloc, &value(alloc, v)?),
        Expr::Neg(u) => Poly::constant(alloc, 0)?.sub(alloc, &value(alloc, u)?),
        Expr::Pow(u, k) => power(alloc, &value(alloc, u)?, *k),
        Expr::Quot(_, _) => Err(Limit::Wide),
    }
}

fn symbol_of(alloc: Global, name: &Name) -> Result<Poly, Limit> {
    match name.as_slice() {
        b"x" => Ok(Poly::symbol(alloc, 0)?),
        b"y" => Ok(Poly::symbol(alloc, 1)?),
        b"z" => Ok(Poly::symbol(alloc, 2)?),
        _ => Err(Limit::Wide),
    }
}

fn power(alloc: Global, base: &Poly, exponent: u8) -> Result<Poly, Limit> {
    let mut all = Poly::constant(alloc, 1)?;
    for _ in 0..exponent {
        all = all.mul(alloc, base)?;
    }
    Ok(all)
}

/// Adds the terms in their order, as `2*x^9*y - 3`.
pub fn add_polynomial(alloc: Global, text: &mut Bytes, poly: &Poly) -> Result<(), RowFault> {
    let mut first = true;
    for term in poly.terms() {
        text.extend(match (first, term.coefficient < 0) {
            (true, true) => b"-".as_slice(),
            (true, false) => b"".as_slice(),
            (false, true) => b" - ".as_slice(),
            (false, false) => b" + ".as_slice(),
        })?;
        first = false;
        add_term(alloc, text, term)?;
    }
    if first {
        text.extend(b"0")?;
    }
    Ok(())
}

/// Adds a term without its sign.
fn add_term(alloc: Global, text: &mut Bytes, term: &Term) -> Result<(), RowFault> {
    let size = term.coefficient.unsigned_abs();
    let mut bare = true;
    if size != 1 || term.powers == [0; 32] {
        add_whole(alloc, text, i128::from(size))?;
        bare = false;
    }
    for (name, exponent) in NAMES.iter().zip(term.powers.iter()) {
        if *exponent > 0 {
            if !bare {
                text.extend(b"*")?;
            }
            bare = false;
            add_power(alloc, text, name, *exponent)?;
        }
    }
    Ok(())
}

fn add_power(alloc: Global, text: &mut Bytes, name: &[u8], exponent: u8) -> Result<(), RowFault> {
    text.extend(name)?;
    if exponent > 1 {
        text.extend(b"^")?;
        add_whole(alloc, text, i128::from(exponent))?;
    }
    Ok(())
}

/// The polynomial as it is printed, or Wide.
fn answer(alloc: Global, found: Result<Poly, Limit>) -> Result<Bytes, RowFault> {
    match found {
        Ok(poly) => printed(alloc, &poly),
        Err(Limit::Wide) => told(alloc, "Wide"),
        Err(Limit::Memory) => Err(RowFault::Memory),
    }
}

fn printed(alloc: Global, poly: &Poly) -> Result<Bytes, RowFault> {
    let mut text = Bytes::new(alloc);
    add_polynomial(alloc, &mut text, poly)?;
    Ok(text)
}

pub fn product(alloc: Global, a: &str, b: &str) -> Result<Bytes, RowFault> {
    let (a, b) = (polynomial(alloc, a)?, polynomial(alloc, b)?);
    answer(alloc, a.mul(alloc, &b))
}

/// `a*b2 - a2*b` divided by its content.
pub fn cross(alloc: Global, a: &str, b2: &str, a2: &str, b: &str) -> Result<Bytes, RowFault> {
    let (a, b2) = (polynomial(alloc, a)?, polynomial(alloc, b2)?);
    let (a2, b) = (polynomial(alloc, a2)?, polynomial(alloc, b)?);
    answer(alloc, Poly::cross(alloc, &a, &b2, &a2, &b))
}

/// The polynomial where x has a value.
pub fn restricted(alloc: Global, poly: &str, value: &str) -> Result<Bytes, RowFault> {
    let poly = polynomial(alloc, poly)?;
    let value = frac(value)?;
    answer(alloc, poly.restrict(alloc, 0, &value))
}

/// The canonical polynomial, and whether the sign was turned for it.
pub fn canonical(alloc: Global, poly: &str) -> Result<Bytes, RowFault> {
    let poly = polynomial(alloc, poly)?;
    if poly.terms().is_empty() {
        return Err(RowFault::Unreadable);
    }
    let (form, turned) = poly.canonical(alloc)?;
    let mut text = printed(alloc, &form)?;
    text.extend(if turned {
        b", turned".as_slice()
    } else {
        b", not turned".as_slice()
    })?;
    Ok(text)
}

/// Slope and base in a symbol.
pub fn split(alloc: Global, x: &str, poly: &str) -> Result<Bytes, RowFault> {
    let x = symbol(x)?;
    let poly = polynomial(alloc, poly)?;
    if x >= 32 || poly.degree_in(x) > 1 {
        return Err(RowFault::Unreadable);
    }
    let (slope, base) = poly.split_linear(alloc, x)?;
    let mut text = printed(alloc, &slope)?;
    text.extend(b", ")?;
    add_polynomial(alloc, &mut text, &base)?;
    Ok(text)
}

/// A copy of the polynomial.
pub fn copied(alloc: Global, poly: &str) -> Result<Bytes, RowFault> {
    let poly = polynomial(alloc, poly)?;
    printed(alloc, &poly.copy(alloc)?)
}

/// The greatest exponent of a symbol.
pub fn degree(alloc: Global, x: &str, poly: &str) -> Result<Bytes, RowFault> {
    let x = symbol(x)?;
    let poly = polynomial(alloc, poly)?;
    let mut text = Bytes::new(alloc);
    if x < 32 {
        add_whole(alloc, &mut text, i128::from(poly.degree_in(x)))?;
    }
    Ok(text)
}
