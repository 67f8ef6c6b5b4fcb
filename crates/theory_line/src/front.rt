ghost use Rattle.std.specs.Prelude.{◌≡◌, [], ◌∷◌, MatchOption};
ghost use Rattle.theory_grammar.specs.Token as plain;
ghost use Rattle.theory_line.specs.Exprs.{NotMark, NotSummed, NotMultiplied, NotLiteral, NotLower, addition_mark, multiplication_mark, over_mark};
ghost use Rattle.theory_tokens.specs.Plain.{plain_tokens};

use theory_grammar::Mark;
use theory_tokens::Token;

/// How a term is joined to the sum before it.
#[derive(Clone, Copy, Debug)]
pub enum Addition {
    Plus,
    Minus,
}

/// How a factor or a divisor is joined to the term before it.
#[derive(Clone, Copy, Debug)]
pub enum Multiplication {
    Times,
    Over,
}

/// The first token and those behind it.
pub fn front<'a>(tokens: &'a [Token<'a>]) -> Option<(Token<'a>, &'a [Token<'a>])>
    ensures { MatchOption result (tokens.now ≡ []) (λ p. tokens.now ≡ p.0 ∷ p.1.now) }
{
    match tokens {
        [] => None,
        [first, rest @ ..] => Some((*first, rest)),
    }
}

/// The tokens behind this mark.
pub fn behind_mark<'a>(mark: Mark, tokens: &'a [Token<'a>]) -> Option<&'a [Token<'a>]>
    ensures { MatchOption result (NotMark mark (plain_tokens tokens.now))
        (λ rest. plain_tokens tokens.now ≡ plain.mark mark ∷ plain_tokens rest.now) }
{
    match front(tokens) {
        Some((Token::Mark(found), rest)) => if found == mark { Some(rest) } else { None },
        _ => None,
    }
}

/// How the next term is joined, and the tokens behind that sign.
pub fn sum_sign<'a>(tokens: &'a [Token<'a>]) -> Option<(Addition, &'a [Token<'a>])>
    ensures { MatchOption result (NotSummed (plain_tokens tokens.now)) (λ p.
        plain_tokens tokens.now ≡ plain.mark (addition_mark p.0) ∷ plain_tokens p.1.now) }
{
    match front(tokens) {
        Some((Token::Mark(Mark::Plus), rest)) => Some((Addition::Plus, rest)),
        Some((Token::Mark(Mark::Minus), rest)) => Some((Addition::Minus, rest)),
        _ => None,
    }
}

/// How the next factor or divisor is joined, and the tokens behind that sign.
pub fn product_sign<'a>(tokens: &'a [Token<'a>]) -> Option<(Multiplication, &'a [Token<'a>])>
    ensures { MatchOption result (NotMultiplied (plain_tokens tokens.now)) (λ p.
        plain_tokens tokens.now ≡ plain.mark (multiplication_mark p.0) ∷ plain_tokens p.1.now) }
{
    match front(tokens) {
        Some((Token::Mark(Mark::Times), rest)) => Some((Multiplication::Times, rest)),
        Some((Token::Mark(Mark::Over), rest)) => Some((Multiplication::Over, rest)),
        _ => None,
    }
}

/// The numbers of a fraction literal, and the tokens behind it.
pub fn literal<'a>(tokens: &'a [Token<'a>]) -> Option<(u64, u64, &'a [Token<'a>])>
    ensures { MatchOption result (NotLiteral (plain_tokens tokens.now)) (λ p.
        plain_tokens tokens.now
        ≡ plain.number p.0 ∷ over_mark ∷ plain.number p.1 ∷ plain_tokens p.2.now) }
{
    match front(tokens) {
        Some((Token::Number(above), rest)) => match lower_number(rest) {
            Some((below, behind)) => Some((above, below, behind)),
            None => None,
        },
        _ => None,
    }
}

// The second number of a fraction literal, and the tokens behind it.
fn lower_number<'a>(tokens: &'a [Token<'a>]) -> Option<(u64, &'a [Token<'a>])>
    ensures { MatchOption result (NotLower (plain_tokens tokens.now)) (λ p.
        plain_tokens tokens.now ≡ over_mark ∷ plain.number p.0 ∷ plain_tokens p.1.now) }
{
    match behind_mark(Mark::Over, tokens) {
        Some(behind) => match front(behind) {
            Some((Token::Number(number), rest)) => Some((number, rest)),
            _ => None,
        },
        None => None,
    }
}
