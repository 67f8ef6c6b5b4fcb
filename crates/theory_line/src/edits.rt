ghost use Rattle.std.specs.Prelude.{◌≡◌, All, codes};
ghost use Rattle.std.specs.Str.{bytes_eq};
ghost use Rattle.theory_grammar.specs.Scan.{IsFit};
ghost use Rattle.theory_grammar.specs.Spelled.{IsOp};
ghost use Rattle.theory_line.specs.Parsed.{IsParsed};
ghost use Rattle.theory_syntax.specs.Plain.{op_of};
ghost use Rattle.theory_tokens.specs.Plain.{plain_tokens};

use crate::fault::ParseFault;
use crate::lines::read_line;
use crate::names::{lone_name, unexpected};
use crate::next::name_first;
use std::alloc::Global;
use theory_syntax::Op;
use theory_tokens::Token;

/// The edit that the tokens spell, or their first fault.
pub fn parse_op(alloc: Global, tokens: &[Token<'_>]) -> Result<Op, ParseFault>
    requires fit { All IsFit (plain_tokens tokens.now) }
    ensures { IsParsed IsOp op_of (plain_tokens tokens.now) result }
{
    match name_first(tokens) {
        Some((word, rest)) if is_put(word) => Ok(Op::Put(read_line(alloc, rest)?)),
        Some((word, rest)) if is_drop(word) => Ok(Op::Drop(lone_name(alloc, rest)?)),
        _ => Err(unexpected(tokens)),
    }
}

fn is_put(word: &[u8]) -> bool
    ensures { result ≡ bytes_eq word.now (codes "put") }
{
    word == b"put".as_slice()
}

fn is_drop(word: &[u8]) -> bool
    ensures { result ≡ bytes_eq word.now (codes "drop") }
{
    word == b"drop".as_slice()
}
