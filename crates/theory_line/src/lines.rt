ghost use Rattle.std.specs.Prelude.{All};
ghost use Rattle.theory_grammar.specs.Machine.{start, name_of_function, label_of_equation, label_of_assumption, label_of_claim};
ghost use Rattle.theory_grammar.specs.Scan.{IsFit};
ghost use Rattle.theory_grammar.specs.Spelled.{IsLine};
ghost use Rattle.theory_line.specs.Lines.{IsReadAs, ParsesWhole};
ghost use Rattle.theory_line.specs.Parsed.{IsParsed};
ghost use Rattle.theory_line.specs.Reading.{reading};
ghost use Rattle.theory_syntax.specs.Plain.{line_of};
ghost use Rattle.theory_tokens.specs.Plain.{plain_tokens};

use crate::claims::claim;
use crate::exprs::expr;
use crate::fault::ParseFault;
use crate::names::{arguments, colon, lone_name, next_name, nothing_behind, unexpected};
use crate::next::{behind_keyword, behind_relation, keyword_first};
use std::alloc::Global;
use theory_grammar::Keyword;
use theory_meaning::Rel;
use theory_syntax::{Claim, Line};
use theory_tokens::Token;

/// The line that the tokens spell, or their first fault.
pub fn parse_line(alloc: Global, tokens: &[Token<'_>]) -> Result<Line, ParseFault>
    requires fit { All IsFit (plain_tokens tokens.now) }
    ensures { IsParsed IsLine line_of (plain_tokens tokens.now) result }
{
    read_line(alloc, tokens)
}

/// The line of the tokens, by its first word.
pub fn read_line<'a>(alloc: Global, tokens: &'a [Token<'a>]) -> Result<Line, ParseFault>
    requires fit { All IsFit (plain_tokens tokens.now) }
    ensures { IsReadAs line_of (reading start (plain_tokens tokens.now)) result }
{
    match keyword_first(tokens) {
        Some((Keyword::Model, rest)) => Ok(Line::Model(lone_name(alloc, rest)?)),
        Some((Keyword::Var, rest)) => Ok(Line::Var(lone_name(alloc, rest)?)),
        Some((Keyword::Param, rest)) => Ok(Line::Param(lone_name(alloc, rest)?)),
        Some((Keyword::Fun, rest)) => function(alloc, rest),
        Some((Keyword::Eq, rest)) => equation(alloc, rest),
        Some((Keyword::Assume, rest)) => assumption(alloc, rest),
        Some((Keyword::Claim, rest)) => assertion(alloc, rest),
        _ => Err(unexpected(tokens)),
    }
}

/// A function with its arguments, behind the first word.
fn function<'a>(alloc: Global, tokens: &'a [Token<'a>]) -> Result<Line, ParseFault>
    requires fit { All IsFit (plain_tokens tokens.now) }
    ensures { IsReadAs line_of (reading name_of_function (plain_tokens tokens.now)) result }
{
    let (name, rest) = next_name(alloc, tokens)?;
    match behind_keyword(Keyword::Of, rest) {
        Some(behind) => Ok(Line::Fun(name, arguments(alloc, behind)?)),
        None => Err(unexpected(rest)),
    }
}

/// An equation, behind the first word.
fn equation<'a>(alloc: Global, tokens: &'a [Token<'a>]) -> Result<Line, ParseFault>
    requires fit { All IsFit (plain_tokens tokens.now) }
    ensures { IsReadAs line_of (reading label_of_equation (plain_tokens tokens.now)) result }
{
    let (label, rest) = next_name(alloc, tokens)?;
    let behind = colon(rest)?;
    let (left, rest) = expr(alloc, 0, behind)?;
    match behind_relation(Rel::Eq, rest) {
        Some(behind) => {
            let (right, rest) = expr(alloc, 0, behind)?;
            nothing_behind(rest)?;
            Ok(Line::Eq(label, left, right))
        }
        None => Err(unexpected(rest)),
    }
}

/// An assumption, behind the first word.
fn assumption<'a>(alloc: Global, tokens: &'a [Token<'a>]) -> Result<Line, ParseFault>
    requires fit { All IsFit (plain_tokens tokens.now) }
    ensures { IsReadAs line_of (reading label_of_assumption (plain_tokens tokens.now)) result }
{
    let (label, rest) = next_name(alloc, tokens)?;
    Ok(Line::Assume(label, whole_claim(alloc, rest)?))
}

/// A claim with or without a shift, behind the first word.
fn assertion<'a>(alloc: Global, tokens: &'a [Token<'a>]) -> Result<Line, ParseFault>
    requires fit { All IsFit (plain_tokens tokens.now) }
    ensures { IsReadAs line_of (reading label_of_claim (plain_tokens tokens.now)) result }
{
    let (label, rest) = next_name(alloc, tokens)?;
    match behind_keyword(Keyword::By, rest) {
        Some(behind) => {
            let (shift, rest) = next_name(alloc, behind)?;
            Ok(Line::Claim(label, Some(shift), whole_claim(alloc, rest)?))
        }
        None => Ok(Line::Claim(label, None, whole_claim(alloc, rest)?)),
    }
}

/// A colon and a claim with nothing behind it.
fn whole_claim<'a>(alloc: Global, tokens: &'a [Token<'a>]) -> Result<Claim, ParseFault>
    requires fit { All IsFit (plain_tokens tokens.now) }
    ensures { ParsesWhole tokens.now result }
{
    let behind = colon(tokens)?;
    let (all, rest) = claim(alloc, 0, behind)?;
    nothing_behind(rest)?;
    Ok(all)
}
