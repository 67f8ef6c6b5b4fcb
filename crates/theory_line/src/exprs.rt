ghost use Rattle.std.specs.Prelude.{ℕ, ◌≤◌, List, All};
ghost use Rattle.theory_grammar.specs.Scan.{IsFit};
ghost use Rattle.theory_grammar.specs.Machine.{Place, Context, fresh, operand};
ghost use Rattle.theory_line.specs.Reading.{LeavesFit, Parses, reading};
ghost use Rattle.theory_line.specs.Behind.{behind_expr};
ghost use Rattle.theory_line.specs.Exprs.{ParsesTerm, ParsesNext, ParsesFactor, ParsesOpposite, ParsesDivisor, ParsesPrimary, ParsesBracketed};
ghost use Rattle.theory_syntax.specs.Plain.{expr_of};
ghost use Rattle.theory_tokens.specs.Plain.{plain_tokens};

use crate::fault::ParseFault;
use crate::front::{Multiplication, behind_mark, front, literal, product_sign, sum_sign};
use crate::literals::{fraction, raised, whole_number};
use crate::nodes::symbol;
use crate::parts::{closed, opposite, product, sum};
use std::alloc::Global;
use theory_grammar::{LineFaultKind, Mark};
use theory_syntax::Expr;
use theory_tokens::Token;

/// The greatest number of signs that may be open at once.
const MOST_OPEN: u32 = 32;

/// An expression and the tokens behind it, in so many open signs.
#[cycle(expr)]
pub fn expr<'a>(
    alloc: Global,
    depth: u32,
    tokens: &'a [Token<'a>],
) -> Result<(Expr, &'a [Token<'a>]), ParseFault>
    requires open { depth ≤ 32 }
    requires fit { All IsFit (plain_tokens tokens.now) }
    ensures parses { (o : List Place) (ctx : Context) → Parses expr_of
        (reading (operand (fresh depth) o ctx) (plain_tokens tokens.now))
        (λ x rest. behind_expr x o ctx rest) tokens.now result }
    ensures fit { LeavesFit result }
{
    let (mut all, mut rest) = term(alloc, depth, tokens)?;
    while let Some((how, behind)) = sum_sign(rest) {
        let next = term(alloc, depth, behind);
        let (longer, left_over) = sum(alloc, how, all, next)?;
        all = longer;
        rest = left_over;
    }
    Ok((all, rest))
}

// A term of a sum and the tokens behind it.
#[cycle(expr)]
fn term<'a>(
    alloc: Global,
    depth: u32,
    tokens: &'a [Token<'a>],
) -> Result<(Expr, &'a [Token<'a>]), ParseFault>
    requires open { depth ≤ 32 }
    requires fit { All IsFit (plain_tokens tokens.now) }
    ensures parses { ParsesTerm depth tokens.now result }
    ensures fit { LeavesFit result }
{
    let (mut all, mut rest) = factor(alloc, depth, tokens)?;
    while let Some((how, behind)) = product_sign(rest) {
        let next = next_factor(alloc, depth, how, behind);
        let (longer, left_over) = product(alloc, how, all, next)?;
        all = longer;
        rest = left_over;
    }
    Ok((all, rest))
}

// A factor behind `*` or a divisor behind `/`, and the tokens behind it.
#[cycle(expr)]
fn next_factor<'a>(
    alloc: Global,
    depth: u32,
    how: Multiplication,
    tokens: &'a [Token<'a>],
) -> Result<(Expr, &'a [Token<'a>]), ParseFault>
    requires open { depth ≤ 32 }
    requires fit { All IsFit (plain_tokens tokens.now) }
    ensures parses { ParsesNext depth how tokens.now result }
    ensures fit { LeavesFit result }
{
    match how {
        Multiplication::Times => factor(alloc, depth, tokens),
        Multiplication::Over => divisor(alloc, depth, tokens),
    }
}

// A factor of a term and the tokens behind it.
#[cycle(expr)]
fn factor<'a>(
    alloc: Global,
    depth: u32,
    tokens: &'a [Token<'a>],
) -> Result<(Expr, &'a [Token<'a>]), ParseFault>
    requires open { depth ≤ 32 }
    requires fit { All IsFit (plain_tokens tokens.now) }
    ensures parses { ParsesFactor depth tokens.now result }
    ensures fit { LeavesFit result }
{
    if let Some(behind) = behind_mark(Mark::Minus, tokens) {
        return if depth < MOST_OPEN {
            negated(alloc, depth + 1, behind)
        } else {
            Err(ParseFault::At(LineFaultKind::Deep, tokens.len()))
        };
    }
    match literal(tokens) {
        Some((above, below, rest)) => fraction(above, below, rest),
        None => divisor(alloc, depth, tokens),
    }
}

// The opposite of the factor behind a minus, which counts as one of the open signs.
#[cycle(expr)]
fn negated<'a>(
    alloc: Global,
    depth: u32,
    tokens: &'a [Token<'a>],
) -> Result<(Expr, &'a [Token<'a>]), ParseFault>
    requires open { depth ≤ 32 }
    requires fit { All IsFit (plain_tokens tokens.now) }
    ensures parses { ParsesOpposite depth tokens.now result }
    ensures fit { LeavesFit result }
{
    opposite(alloc, factor(alloc, depth, tokens))
}

// A primary, perhaps with an exponent, and the tokens behind it: no literal and no minus.
#[cycle(expr)]
fn divisor<'a>(
    alloc: Global,
    depth: u32,
    tokens: &'a [Token<'a>],
) -> Result<(Expr, &'a [Token<'a>]), ParseFault>
    requires open { depth ≤ 32 }
    requires fit { All IsFit (plain_tokens tokens.now) }
    ensures parses { ParsesDivisor depth tokens.now result }
    ensures fit { LeavesFit result }
{
    let (base, rest) = primary(alloc, depth, tokens)?;
    match behind_mark(Mark::Power, rest) {
        Some(behind) => raised(alloc, base, behind),
        None => Ok((base, rest)),
    }
}

// A number, a name or an expression in brackets, and the tokens behind it.
#[cycle(expr)]
fn primary<'a>(
    alloc: Global,
    depth: u32,
    tokens: &'a [Token<'a>],
) -> Result<(Expr, &'a [Token<'a>]), ParseFault>
    requires open { depth ≤ 32 }
    requires fit { All IsFit (plain_tokens tokens.now) }
    ensures parses { ParsesPrimary depth tokens.now result }
    ensures fit { LeavesFit result }
{
    match front(tokens) {
        Some((Token::Number(number), rest)) => Ok((Expr::Num(whole_number(number)), rest)),
        Some((Token::Name(name), rest)) => Ok((symbol(alloc, name)?, rest)),
        Some((Token::Dotted(name), rest)) => Ok((symbol(alloc, name)?, rest)),
        Some((Token::Mark(Mark::Open), behind)) => if depth < MOST_OPEN {
            bracketed(alloc, depth + 1, behind)
        } else {
            Err(ParseFault::At(LineFaultKind::Deep, tokens.len()))
        },
        _ => Err(ParseFault::At(LineFaultKind::Unexpected, tokens.len())),
    }
}

// The expression behind an open bracket, and the tokens behind the one that closes it.
#[cycle(expr)]
fn bracketed<'a>(
    alloc: Global,
    depth: u32,
    tokens: &'a [Token<'a>],
) -> Result<(Expr, &'a [Token<'a>]), ParseFault>
    requires open { depth ≤ 32 }
    requires fit { All IsFit (plain_tokens tokens.now) }
    ensures parses { ParsesBracketed depth tokens.now result }
    ensures fit { LeavesFit result }
{
    closed(expr(alloc, depth, tokens))
}
