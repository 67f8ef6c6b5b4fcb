ghost use Rattle.std.specs.Prelude.{◌≡◌, All, length};
ghost use Rattle.theory_grammar.specs.declared.words.LineFaultKind.TheVariants.{Unexpected};
ghost use Rattle.theory_grammar.specs.Scan.{IsFit};
ghost use Rattle.theory_line.specs.declared.fault.ParseFault.TheVariants.{At};
ghost use Rattle.theory_line.specs.Reading.{LeavesFit};
ghost use Rattle.theory_line.specs.Lines.{ParsesName, ParsesLoneName, ParsesArguments, PassesColon, Ends};
ghost use Rattle.theory_tokens.specs.Plain.{plain_tokens};

use crate::fault::ParseFault;
use crate::next::{behind_mark, name_first};
use std::alloc::Global;
use theory_grammar::{LineFaultKind, Mark};
use theory_points::{Name, Names};
use theory_tokens::Token;

/// The fault of the token that stands first, or of the end of the line.
pub fn unexpected(tokens: &[Token<'_>]) -> ParseFault
    ensures { result ≡ At Unexpected (length tokens.now) }
{
    ParseFault::At(LineFaultKind::Unexpected, tokens.len())
}

/// A name and the tokens behind it.
pub fn next_name<'a>(
    alloc: Global,
    tokens: &'a [Token<'a>],
) -> Result<(Name, &'a [Token<'a>]), ParseFault>
    requires fit { All IsFit (plain_tokens tokens.now) }
    ensures parses { ParsesName tokens.now result }
    ensures fit { LeavesFit result }
{
    match name_first(tokens) {
        Some((bytes, rest)) => Ok((Name::from_slice(alloc, bytes)?, rest)),
        None => Err(unexpected(tokens)),
    }
}

/// A name with nothing behind it.
pub fn lone_name<'a>(alloc: Global, tokens: &'a [Token<'a>]) -> Result<Name, ParseFault>
    requires fit { All IsFit (plain_tokens tokens.now) }
    ensures { ParsesLoneName tokens.now result }
{
    let (only, rest) = next_name(alloc, tokens)?;
    nothing_behind(rest)?;
    Ok(only)
}

/// The names up to the end of the line, at least one.
pub fn arguments<'a>(alloc: Global, tokens: &'a [Token<'a>]) -> Result<Names, ParseFault>
    requires fit { All IsFit (plain_tokens tokens.now) }
    ensures { ParsesArguments tokens.now result }
{
    let (first, mut rest) = next_name(alloc, tokens)?;
    let mut all = Names::new(alloc);
    all.push(first)?;
    while !rest.is_empty() {
        let (argument, behind) = next_name(alloc, rest)?;
        all.push(argument)?;
        rest = behind;
    }
    Ok(all)
}

/// The tokens behind a colon.
pub fn colon<'a>(tokens: &'a [Token<'a>]) -> Result<&'a [Token<'a>], ParseFault>
    ensures { PassesColon tokens.now result }
{
    match behind_mark(Mark::Colon, tokens) {
        Some(rest) => Ok(rest),
        None => Err(unexpected(tokens)),
    }
}

/// The end of the line.
pub fn nothing_behind(tokens: &[Token<'_>]) -> Result<(), ParseFault>
    ensures { Ends tokens.now result }
{
    if tokens.is_empty() {
        Ok(())
    } else {
        Err(unexpected(tokens))
    }
}
