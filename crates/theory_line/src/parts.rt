ghost use Rattle.theory_line.specs.Exprs.{PutTogether, Closes, summed, multiplied};
ghost use Rattle.theory_meaning.specs.Tree as plain;
ghost use Rattle.theory_syntax.specs.Plain.{expr_of};

use crate::fault::ParseFault;
use crate::front::{Addition, Multiplication, behind_mark};
use crate::nodes;
use std::alloc::Global;
use theory_grammar::{LineFaultKind, Mark};
use theory_syntax::Expr;
use theory_tokens::Token;

// Each takes what was read of the next part, so that the readers of `exprs` hold no tree
// where a part fails.

/// The sum or the difference of an expression and the part that follows.
pub fn sum<'a>(
    alloc: Global,
    how: Addition,
    left: Expr,
    next: Result<(Expr, &'a [Token<'a>]), ParseFault>,
) -> Result<(Expr, &'a [Token<'a>]), ParseFault>
    ensures { PutTogether (summed how (expr_of left)) next.entry result }
{
    match next {
        Ok((right, rest)) => Ok((nodes::sum(alloc, how, left, right)?, rest)),
        Err(fault) => Err(fault),
    }
}

/// The product or the quotient of an expression and the part that follows.
pub fn product<'a>(
    alloc: Global,
    how: Multiplication,
    left: Expr,
    next: Result<(Expr, &'a [Token<'a>]), ParseFault>,
) -> Result<(Expr, &'a [Token<'a>]), ParseFault>
    ensures { PutTogether (multiplied how (expr_of left)) next.entry result }
{
    match next {
        Ok((right, rest)) => Ok((nodes::product(alloc, how, left, right)?, rest)),
        Err(fault) => Err(fault),
    }
}

/// The opposite of the part that follows.
pub fn opposite<'a>(
    alloc: Global,
    next: Result<(Expr, &'a [Token<'a>]), ParseFault>,
) -> Result<(Expr, &'a [Token<'a>]), ParseFault>
    ensures { PutTogether plain.opposite next.entry result }
{
    match next {
        Ok((inner, rest)) => Ok((nodes::opposite(alloc, inner)?, rest)),
        Err(fault) => Err(fault),
    }
}

/// The part that follows up to a closing bracket.
pub fn closed<'a>(
    next: Result<(Expr, &'a [Token<'a>]), ParseFault>,
) -> Result<(Expr, &'a [Token<'a>]), ParseFault>
    ensures { Closes next.entry result }
{
    match next {
        Ok((inner, rest)) => match behind_mark(Mark::Close, rest) {
            Some(behind) => Ok((inner, behind)),
            None => Err(ParseFault::At(LineFaultKind::Unexpected, rest.len())),
        },
        Err(fault) => Err(fault),
    }
}
