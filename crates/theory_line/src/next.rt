ghost use Rattle.std.specs.Prelude.{◌≡◌, [], ◌∷◌, MatchOption};
ghost use Rattle.theory_grammar.specs.Token.{keyword, mark, relation};
ghost use Rattle.theory_line.specs.First.{StandsFirst, KeywordFirst, NameFirst, RelationFirst};
ghost use Rattle.theory_tokens.specs.Plain.{plain_tokens};

use theory_grammar::{Keyword, Mark};
use theory_meaning::Rel;
use theory_tokens::Token;

/// The first token and those behind it.
fn split_first<'a>(tokens: &'a [Token<'a>]) -> Option<(Token<'a>, &'a [Token<'a>])>
    ensures { MatchOption result (tokens.now ≡ []) (λ p. tokens.now ≡ p.0 ∷ p.1.now) }
{
    if tokens.is_empty() {
        return None;
    }
    Some((tokens[0], &tokens[1..]))
}

/// The tokens behind this word, where it stands first.
pub fn behind_keyword<'a>(word: Keyword, tokens: &'a [Token<'a>]) -> Option<&'a [Token<'a>]>
    ensures { StandsFirst (keyword word) (plain_tokens tokens.now) result }
{
    match split_first(tokens) {
        Some((Token::Keyword(first), rest)) if first == word => Some(rest),
        _ => None,
    }
}

/// The tokens behind this mark, where it stands first.
pub fn behind_mark<'a>(sign: Mark, tokens: &'a [Token<'a>]) -> Option<&'a [Token<'a>]>
    ensures { StandsFirst (mark sign) (plain_tokens tokens.now) result }
{
    match split_first(tokens) {
        Some((Token::Mark(first), rest)) if first == sign => Some(rest),
        _ => None,
    }
}

/// The tokens behind this relation, where it stands first.
pub fn behind_relation<'a>(rel: Rel, tokens: &'a [Token<'a>]) -> Option<&'a [Token<'a>]>
    ensures { StandsFirst (relation rel) (plain_tokens tokens.now) result }
{
    match split_first(tokens) {
        Some((Token::Relation(first), rest)) if first == rel => Some(rest),
        _ => None,
    }
}

/// The word that stands first, and the tokens behind it.
pub fn keyword_first<'a>(tokens: &'a [Token<'a>]) -> Option<(Keyword, &'a [Token<'a>])>
    ensures { KeywordFirst (plain_tokens tokens.now) result }
{
    match split_first(tokens) {
        Some((Token::Keyword(word), rest)) => Some((word, rest)),
        _ => None,
    }
}

/// The relation that stands first, and the tokens behind it.
pub fn relation_first<'a>(tokens: &'a [Token<'a>]) -> Option<(Rel, &'a [Token<'a>])>
    ensures { RelationFirst (plain_tokens tokens.now) result }
{
    match split_first(tokens) {
        Some((Token::Relation(rel), rest)) => Some((rel, rest)),
        _ => None,
    }
}

/// The bytes of the name that stands first, and the tokens behind it.
pub fn name_first<'a>(tokens: &'a [Token<'a>]) -> Option<(&'a [u8], &'a [Token<'a>])>
    ensures { NameFirst (plain_tokens tokens.now) result }
{
    match split_first(tokens) {
        Some((Token::Name(bytes), rest)) => Some((bytes, rest)),
        _ => None,
    }
}
