ghost use Rattle.std.specs.Prelude.{◌≡◌, ◌-◌, ◌≤◌, ◌<◌, MatchOption};
ghost use Rattle.theory_meaning.specs.Limits.{bound};
ghost use Rattle.theory_grammar.specs.Lexeme.{number_of, digits_meaning};
ghost use Rattle.theory_tokens.specs.Next.{meaning_of};

use crate::token::Token;
use theory_grammar::Unreadable;

/// The greatest number of a literal.
const GREATEST: u64 = 1 << 58;

// The number that digits stand for; None where it is above 2^58.
fn number(digits: &[u8]) -> Option<u64>
    ensures { MatchOption result (bound < number_of digits.now)
        (λ n. (n ≡ number_of digits.now) × (n ≤ bound)) }
{
    let mut value = 0;
    for digit in digits {
        value = value * 10 + digit_value(*digit);
        if value > GREATEST {
            return None;
        }
    }
    Some(value)
}

fn digit_value(digit: u8) -> u64
    ensures { result ≡ digit - 48 }
{
    digit.saturating_sub(b'0') as u64
}

/// The token of digits, or why they can't be read.
pub fn number_token<'a>(digits: &[u8]) -> Result<Token<'a>, Unreadable>
    ensures { meaning_of result ≡ digits_meaning digits.now }
{
    match number(digits) {
        Some(value) => Ok(Token::Number(value)),
        None => Err(Unreadable::LiteralWide),
    }
}
