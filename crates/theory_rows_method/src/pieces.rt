//! What fields stand for: numbers, points, symbols, relations, claims, sentences.

use crate::fault::RowFault;
use std::alloc::Global;
use theory_meaning::Sign;
use theory_points::{Bytes, Frac, Name, Names, Point};
use theory_signs::Signs;
use theory_syntax::{Claim, Claims, Expr, Line, Sentence};
use theory_text::read_line;

pub fn whole(field: &str) -> Result<i128, RowFault> {
    match field.parse::<i128>() {
        Ok(number) => Ok(number),
        Err(_) => Err(RowFault::Unreadable),
    }
}

/// A part of a fraction.
pub fn part(field: &str) -> Result<i64, RowFault> {
    match field.parse::<i64>() {
        Ok(number) => Ok(number),
        Err(_) => Err(RowFault::Unreadable),
    }
}

/// A number that is no index past 2^16.
pub fn small(field: &str) -> Result<u32, RowFault> {
    match field.parse::<u16>() {
        Ok(number) => Ok(u32::from(number)),
        Err(_) => Err(RowFault::Unreadable),
    }
}

/// A fraction as `1/2` or `-3`.
pub fn frac(field: &str) -> Result<Frac, RowFault> {
    let (top, bottom) = match field.split_once('/') {
        Some((top, bottom)) => (whole(top)?, whole(bottom)?),
        None => (whole(field)?, 1),
    };
    match Frac::new(top, bottom) {
        Some(value) => Ok(value),
        None => Err(RowFault::Unreadable),
    }
}

/// The place of x, y or z among the symbols.
pub fn symbol(field: &str) -> Result<u8, RowFault> {
    match field {
        "x" => Ok(0),
        "y" => Ok(1),
        "z" => Ok(2),
        _ => Err(RowFault::Unreadable),
    }
}

/// The name of the symbol at a place.
pub fn symbol_name(x: u8) -> Result<&'static str, RowFault> {
    match x {
        0 => Ok("x"),
        1 => Ok("y"),
        2 => Ok("z"),
        _ => Err(RowFault::Unreadable),
    }
}

/// The set of signs of a relation to 0.
pub fn signs(field: &str) -> Result<Signs, RowFault> {
    match field {
        "<" => Ok(Signs::Neg),
        "=" => Ok(Signs::Zero),
        ">" => Ok(Signs::Pos),
        "<=" => Ok(Signs::NotPos),
        "!=" => Ok(Signs::NonZero),
        ">=" => Ok(Signs::NotNeg),
        _ => Err(RowFault::Unreadable),
    }
}

pub fn sign(field: &str) -> Result<Sign, RowFault> {
    match field {
        "-" => Ok(Sign::Minus),
        "0" => Ok(Sign::Zero),
        "+" => Ok(Sign::Plus),
        _ => Err(RowFault::Unreadable),
    }
}

/// The names x, y and z.
pub fn symbols(alloc: Global) -> Result<Names, RowFault> {
    let mut names = Names::new(alloc);
    for name in [b"x", b"y", b"z"] {
        names.push(Name::from_slice(alloc, name.as_slice())?)?;
    }
    Ok(names)
}

/// A point as `x=1/2, y=-3`.
pub fn point(alloc: Global, field: &str) -> Result<Point, RowFault> {
    let mut point = Point::new(alloc);
    if field.is_empty() {
        return Ok(point);
    }
    for part in field.split(',') {
        match part.trim().split_once('=') {
            Some((name, value)) => {
                point.set(Name::from_slice(alloc, name.as_bytes())?, frac(value)?)?;
            }
            None => return Err(RowFault::Unreadable),
        }
    }
    Ok(point)
}

/// A claim as it stands behind a label.
pub fn claim(alloc: Global, field: &str) -> Result<Claim, RowFault> {
    let mut line = Bytes::from_slice(alloc, b"claim C: ")?;
    line.extend(field.trim().as_bytes())?;
    match read_line(alloc, line.as_slice()) {
        Ok(Some(Line::Claim(_, _, claim))) => Ok(claim),
        _ => Err(RowFault::Unreadable),
    }
}

/// The expression of a field.
pub fn expression(alloc: Global, field: &str) -> Result<Expr, RowFault> {
    let compared = format!(in alloc; "{field} = 0")?;
    match claim(alloc, compared.as_str())? {
        Claim::Atom(left, _, _) => Ok(left),
        _ => Err(RowFault::Unreadable),
    }
}

/// One claim as a sentence about x, y and z.
pub fn alone(alloc: Global, claim: Claim) -> Result<Sentence, RowFault> {
    let mut conjuncts = Vec::new(alloc);
    push_claim(&mut conjuncts, claim)?;
    let symbols = symbols(alloc)?;
    Ok(Sentence { conjuncts, symbols })
}

/// The claims between semicolons, as a sentence about x, y and z.
pub fn sentence(alloc: Global, field: &str) -> Result<Sentence, RowFault> {
    let mut conjuncts = Vec::new(alloc);
    for part in field.split(';') {
        push_claim(&mut conjuncts, claim(alloc, part)?)?;
    }
    let symbols = symbols(alloc)?;
    Ok(Sentence { conjuncts, symbols })
}

fn push_claim(claims: &mut Claims, claim: Claim) -> Result<(), RowFault> {
    claims.push(claim)?;
    Ok(())
}
