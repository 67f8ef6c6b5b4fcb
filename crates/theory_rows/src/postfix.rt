//! Expressions with each operation behind its operands: `a 2 / ~` is the opposite of `a` over 2,
//! and `x ^3` the third power of `x`.

use std::alloc::Global;
use theory_points::{Bytes, Name};
use theory_rows_method::fault::RowFault;
use theory_rows_method::pieces::{frac, small};
use theory_rows_method::telling::add_whole;
use theory_syntax::Expr;
use theory_text::print_expr;

/// The expression of a field.
pub fn expression(alloc: Global, field: &str) -> Result<Expr, RowFault> {
    let mut waiting = Vec::new(alloc);
    for word in field.split(' ') {
        step(alloc, &mut waiting, word)?;
    }
    match waiting.pop() {
        Some(expr) if waiting.is_empty() => Ok(expr),
        _ => Err(RowFault::Unreadable),
    }
}

/// Takes the operands of a word from the end, and adds what it makes of them.
fn step(alloc: Global, waiting: &mut Vec<Expr>, word: &str) -> Result<(), RowFault> {
    let made = match word {
        "+" | "-" | "*" | "/" => of_two(alloc, waiting, word)?,
        "~" => Expr::Neg(last(alloc, waiting)?),
        _ => of_word(alloc, waiting, word)?,
    };
    waiting.push(made)?;
    Ok(())
}

fn of_two(alloc: Global, waiting: &mut Vec<Expr>, word: &str) -> Result<Expr, RowFault> {
    let right = last(alloc, waiting)?;
    let left = last(alloc, waiting)?;
    Ok(match word {
        "+" => Expr::Sum(left, right),
        "-" => Expr::Diff(left, right),
        "*" => Expr::Prod(left, right),
        _ => Expr::Quot(left, right),
    })
}

fn of_word(alloc: Global, waiting: &mut Vec<Expr>, word: &str) -> Result<Expr, RowFault> {
    match word.bytes().next() {
        Some(b'^') => {
            let exponent = small(word.strip_prefix("^").unwrap_or(""))?;
            match u8::try_from(exponent) {
                Ok(k) => Ok(Expr::Pow(last(alloc, waiting)?, k)),
                Err(_) => Err(RowFault::Unreadable),
            }
        }
        Some(b'0'..=b'9' | b'-') => Ok(Expr::Num(frac(word)?)),
        _ => Ok(Expr::Sym(Name::from_slice(alloc, word.as_bytes())?)),
    }
}

fn last(alloc: Global, waiting: &mut Vec<Expr>) -> Result<Box<Expr>, RowFault> {
    match waiting.pop() {
        Some(expr) => Ok(Box::new(alloc, expr)?),
        None => Err(RowFault::Unreadable),
    }
}

/// The length of the printed form of `a` and then `b` so many times, with this operation between.
pub fn chain(alloc: Global, operation: &str, times: u32) -> Result<Bytes, RowFault> {
    let mut waiting = Vec::new(alloc);
    step(alloc, &mut waiting, "a")?;
    for _ in 0..times {
        step(alloc, &mut waiting, "b")?;
        step(alloc, &mut waiting, operation)?;
    }
    let all = last(alloc, &mut waiting)?;
    let mut text = Bytes::new(alloc);
    add_whole(alloc, &mut text, print_expr(alloc, &all)?.len() as i128)?;
    Ok(text)
}
