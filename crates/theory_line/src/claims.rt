ghost use Rattle.std.specs.Prelude.{◌≤◌, All};
ghost use Rattle.theory_grammar.specs.Scan.{IsFit};
ghost use Rattle.theory_line.specs.Reading.{LeavesFit};
ghost use Rattle.theory_line.specs.Claims.{ParsesClaim, ParsesSide, ParsesPremise, ParsesDisjunct, ParsesConjunct, ParsesBracketed};
ghost use Rattle.theory_tokens.specs.Plain.{plain_tokens};

use crate::claim_nodes::{conjunction, disjunction, equivalence, implications, keep, negation};
use crate::comparisons::comparison;
use crate::fault::ParseFault;
use crate::next::{behind_keyword, behind_mark};
use std::alloc::Global;
use theory_grammar::{Keyword, LineFaultKind, Mark};
use theory_syntax::Claim;
use theory_tokens::Token;

/// The greatest number of open signs.
const MOST_OPEN: u32 = 32;

/// A claim and the tokens behind it, in so many open signs.
#[cycle(claims)]
pub fn claim<'a>(
    alloc: Global,
    depth: u32,
    tokens: &'a [Token<'a>],
) -> Result<(Claim, &'a [Token<'a>]), ParseFault>
    requires open { depth ≤ 32 }
    requires fit { All IsFit (plain_tokens tokens.now) }
    ensures parses { ParsesClaim depth tokens.now result }
    ensures fit { LeavesFit result }
{
    let (left, rest) = side(alloc, depth, tokens)?;
    match behind_keyword(Keyword::Iff, rest) {
        Some(behind) => {
            let (right, rest) = side(alloc, depth, behind)?;
            Ok((equivalence(alloc, left, right)?, rest))
        }
        None => Ok((left, rest)),
    }
}

/// A side of an `iff`: premises joined by `implies`, the last of which is the conclusion.
#[cycle(claims)]
fn side<'a>(
    alloc: Global,
    depth: u32,
    tokens: &'a [Token<'a>],
) -> Result<(Claim, &'a [Token<'a>]), ParseFault>
    requires open { depth ≤ 32 }
    requires fit { All IsFit (plain_tokens tokens.now) }
    ensures parses { ParsesSide depth tokens.now result }
    ensures fit { LeavesFit result }
{
    let (first, mut rest) = premise(alloc, depth, tokens)?;
    let mut parts = Vec::new(alloc);
    keep(&mut parts, first)?;
    while let Some(behind) = behind_keyword(Keyword::Implies, rest) {
        let (part, left) = premise(alloc, depth, behind)?;
        keep(&mut parts, part)?;
        rest = left;
    }
    Ok((implications(alloc, parts)?, rest))
}

/// A chain of `or`.
#[cycle(claims)]
fn premise<'a>(
    alloc: Global,
    depth: u32,
    tokens: &'a [Token<'a>],
) -> Result<(Claim, &'a [Token<'a>]), ParseFault>
    requires open { depth ≤ 32 }
    requires fit { All IsFit (plain_tokens tokens.now) }
    ensures parses { ParsesPremise depth tokens.now result }
    ensures fit { LeavesFit result }
{
    let (first, mut rest) = disjunct(alloc, depth, tokens)?;
    let mut members = Vec::new(alloc);
    keep(&mut members, first)?;
    while let Some(behind) = behind_keyword(Keyword::Or, rest) {
        let (member, left) = disjunct(alloc, depth, behind)?;
        keep(&mut members, member)?;
        rest = left;
    }
    Ok((disjunction(members), rest))
}

/// A chain of `and`.
#[cycle(claims)]
fn disjunct<'a>(
    alloc: Global,
    depth: u32,
    tokens: &'a [Token<'a>],
) -> Result<(Claim, &'a [Token<'a>]), ParseFault>
    requires open { depth ≤ 32 }
    requires fit { All IsFit (plain_tokens tokens.now) }
    ensures parses { ParsesDisjunct depth tokens.now result }
    ensures fit { LeavesFit result }
{
    let (first, mut rest) = conjunct(alloc, depth, tokens)?;
    let mut members = Vec::new(alloc);
    keep(&mut members, first)?;
    while let Some(behind) = behind_keyword(Keyword::And, rest) {
        let (member, left) = conjunct(alloc, depth, behind)?;
        keep(&mut members, member)?;
        rest = left;
    }
    Ok((conjunction(members), rest))
}

/// What no connective joins: a truth value, a negation, a claim in brackets or a comparison.
#[cycle(claims)]
fn conjunct<'a>(
    alloc: Global,
    depth: u32,
    tokens: &'a [Token<'a>],
) -> Result<(Claim, &'a [Token<'a>]), ParseFault>
    requires open { depth ≤ 32 }
    requires fit { All IsFit (plain_tokens tokens.now) }
    ensures parses { ParsesConjunct depth tokens.now result }
    ensures fit { LeavesFit result }
{
    if let Some(rest) = behind_keyword(Keyword::True, tokens) {
        return Ok((Claim::True, rest));
    }
    if let Some(rest) = behind_keyword(Keyword::False, tokens) {
        return Ok((Claim::False, rest));
    }
    if let Some(rest) = behind_keyword(Keyword::Not, tokens) {
        if depth == MOST_OPEN {
            return Err(ParseFault::At(LineFaultKind::Deep, tokens.len()));
        }
        let (inner, rest) = conjunct(alloc, depth + 1, rest)?;
        return Ok((negation(alloc, inner)?, rest));
    }
    if let Some(rest) = behind_mark(Mark::OpenSquare, tokens) {
        if depth == MOST_OPEN {
            return Err(ParseFault::At(LineFaultKind::Deep, tokens.len()));
        }
        return bracketed(alloc, depth + 1, rest);
    }
    comparison(alloc, depth, tokens)
}

/// The claim behind an open bracket, up to the closing one.
#[cycle(claims)]
fn bracketed<'a>(
    alloc: Global,
    depth: u32,
    tokens: &'a [Token<'a>],
) -> Result<(Claim, &'a [Token<'a>]), ParseFault>
    requires open { depth ≤ 32 }
    requires fit { All IsFit (plain_tokens tokens.now) }
    ensures parses { ParsesBracketed depth tokens.now result }
    ensures fit { LeavesFit result }
{
    let (inner, rest) = claim(alloc, depth, tokens)?;
    match behind_mark(Mark::CloseSquare, rest) {
        Some(behind) => Ok((inner, behind)),
        None => Err(ParseFault::At(LineFaultKind::Unexpected, rest.len())),
    }
}
