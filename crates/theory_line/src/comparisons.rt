ghost use Rattle.std.specs.Prelude.{◌≤◌, All};
ghost use Rattle.theory_grammar.specs.Scan.{IsFit};
ghost use Rattle.theory_line.specs.Reading.{LeavesFit};
ghost use Rattle.theory_line.specs.Claims.{ParsesConjunct};
ghost use Rattle.theory_line.specs.First.{BeginsNoClaim};
ghost use Rattle.theory_tokens.specs.Plain.{plain_tokens};

use crate::exprs::expr;
use crate::fault::ParseFault;
use crate::next::relation_first;
use std::alloc::Global;
use theory_grammar::LineFaultKind;
use theory_syntax::Claim;
use theory_tokens::Token;

/// Two expressions in a relation, and the tokens behind them.
pub fn comparison<'a>(
    alloc: Global,
    depth: u32,
    tokens: &'a [Token<'a>],
) -> Result<(Claim, &'a [Token<'a>]), ParseFault>
    requires open { depth ≤ 32 }
    requires fit { All IsFit (plain_tokens tokens.now) }
    requires begins { BeginsNoClaim (plain_tokens tokens.now) }
    ensures parses { ParsesConjunct depth tokens.now result }
    ensures fit { LeavesFit result }
{
    let (left, rest) = expr(alloc, depth, tokens)?;
    match relation_first(rest) {
        Some((rel, behind)) => {
            let (right, rest) = expr(alloc, depth, behind)?;
            Ok((Claim::Atom(left, rel, right), rest))
        }
        None => Err(ParseFault::At(LineFaultKind::Unexpected, rest.len())),
    }
}
