ghost use Rattle.std.specs.Prelude.{◌≡◌, ◌<◌, ◌≤◌, pos, List, All};
ghost use Rattle.theory_meaning.specs.Fraction.{whole};
ghost use Rattle.theory_meaning.specs.Limits.{bound};
ghost use Rattle.theory_grammar.specs.Scan.{IsFit};
ghost use Rattle.theory_grammar.specs.Spelled.{lowest};
ghost use Rattle.theory_line.specs.Reading.{LeavesFit};
ghost use Rattle.theory_line.specs.Exprs.{ParsesLiteral, ParsesExponent};
ghost use Rattle.theory_syntax.specs.Plain.{expr_of};
ghost use Rattle.theory_tokens.specs.Plain.{plain_tokens};

use crate::fault::ParseFault;
use crate::front::front;
use crate::nodes::power;
use std::alloc::Global;
use theory_grammar::LineFaultKind;
use theory_points::Frac;
use theory_syntax::Expr;
use theory_tokens::Token;

/// The number of a token, which is within the bound of literals.
pub fn whole_number(number: u64) -> Frac
    requires { number ≤ bound }
    ensures { result ≡ whole (pos number) }
{
    quotient(number, 1)
}

// The fraction of these numbers in lowest terms.
fn quotient(above: u64, below: u64) -> Frac
    requires above { above ≤ bound }
    requires below { below ≤ bound }
    requires positive { 0 < below }
    ensures { result ≡ lowest above below }
{
    match Frac::new(above as i128, below as i128) {
        Some(fraction) => fraction,
        None => unreachable!(),
    }
}

/// The literal of these numbers, and the tokens behind it.
pub fn fraction<'a>(
    above: u64,
    below: u64,
    rest: &'a [Token<'a>],
) -> Result<(Expr, &'a [Token<'a>]), ParseFault>
    requires above { above ≤ bound }
    requires below { below ≤ bound }
    ensures { ParsesLiteral above below rest.now result }
{
    if below == 0 {
        return Err(ParseFault::At(LineFaultKind::ZeroBelow, rest.len() + 1));
    }
    Ok((Expr::Num(quotient(above, below)), rest))
}

/// The power of this expression by the exponent behind the sign of a power.
pub fn raised<'a>(
    alloc: Global,
    base: Expr,
    tokens: &'a [Token<'a>],
) -> Result<(Expr, &'a [Token<'a>]), ParseFault>
    requires fit { All IsFit (plain_tokens tokens.now) }
    ensures parses { ParsesExponent (expr_of base) tokens.now result }
    ensures fit { LeavesFit result }
{
    match front(tokens) {
        Some((Token::Number(exponent), rest)) => if exponent < 1 || 8 < exponent {
            Err(ParseFault::At(LineFaultKind::Exponent, tokens.len()))
        } else {
            Ok((power(alloc, base, exponent as u8)?, rest))
        },
        _ => Err(ParseFault::At(LineFaultKind::Unexpected, tokens.len())),
    }
}
