ghost use Rattle.std.specs.Prelude.{◌≡◌, ◌∷◌, ◌++◌, codes};
ghost use Rattle.std.specs.Str.{bytes_eq};
ghost use Rattle.theory_meaning.specs.Identifier.{is_reserved};
ghost use Rattle.theory_grammar.specs.Signs.{keyword_bytes};
ghost use Rattle.theory_grammar.specs.Lexeme.{keyword_among, all_keywords, word_meaning, pair_meaning};
ghost use Rattle.theory_tokens.specs.Next.{meaning_of};

use crate::token::Token;
use theory_grammar::{Keyword, Unreadable};

/// The greatest number of bytes of a word.
const LONGEST_WORD: usize = 32;

/// The reserved words but `d`.
const KEYWORDS: [Keyword; 16] = [
    Keyword::Model,
    Keyword::Var,
    Keyword::Param,
    Keyword::Fun,
    Keyword::Of,
    Keyword::Eq,
    Keyword::Assume,
    Keyword::Claim,
    Keyword::By,
    Keyword::Not,
    Keyword::And,
    Keyword::Or,
    Keyword::Implies,
    Keyword::Iff,
    Keyword::True,
    Keyword::False,
];

fn bytes_of(keyword: Keyword) -> &'static [u8]
    ensures { result.now ≡ keyword_bytes keyword }
{
    match keyword {
        Keyword::Model => b"model",
        Keyword::Var => b"var",
        Keyword::Param => b"param",
        Keyword::Fun => b"fun",
        Keyword::Of => b"of",
        Keyword::Eq => b"eq",
        Keyword::Assume => b"assume",
        Keyword::Claim => b"claim",
        Keyword::By => b"by",
        Keyword::Not => b"not",
        Keyword::And => b"and",
        Keyword::Or => b"or",
        Keyword::Implies => b"implies",
        Keyword::Iff => b"iff",
        Keyword::True => b"true",
        Keyword::False => b"false",
    }
}

fn find(word: &[u8], keywords: &[Keyword]) -> Option<Keyword>
    ensures { result ≡ keyword_among word.now keywords.now }
{
    for keyword in keywords {
        if word == bytes_of(*keyword) {
            return Some(*keyword);
        }
    }
    None
}

fn keyword(word: &[u8]) -> Option<Keyword>
    ensures { result ≡ keyword_among word.now all_keywords }
{
    let keywords: [Keyword; 16] = KEYWORDS;
    find(word, keywords.as_slice())
}

fn is_reserved(word: &[u8]) -> bool
    ensures { result ≡ is_reserved word.now }
{
    keyword(word).is_some() || is_d(word)
}

// Whether the word is the one before the dot of a shift.
fn is_d(word: &[u8]) -> bool
    ensures { result ≡ bytes_eq word.now (codes "d") }
{
    word == b"d".as_slice()
}

/// The token of a word, or why it can't be read.
pub fn word_token(word: &[u8]) -> Result<Token<'_>, Unreadable>
    ensures { meaning_of result ≡ word_meaning word.now }
{
    if word.len() > LONGEST_WORD {
        return Err(Unreadable::BadToken);
    }
    match keyword(word) {
        Some(found) => Ok(Token::Keyword(found)),
        None => if is_d(word) {
            Ok(Token::Stray)
        } else {
            Ok(Token::Name(word))
        },
    }
}

/// The token of two words with a dot between them, given the bytes of the whole.
pub fn pair_token<'a>(first: &[u8], second: &[u8], whole: &'a [u8]) -> Result<Token<'a>, Unreadable>
    requires { whole.now ≡ first.now ++ 46 ∷ second.now }
    ensures { meaning_of result ≡ pair_meaning first.now second.now }
{
    if first.len() > LONGEST_WORD || second.len() > LONGEST_WORD {
        return Err(Unreadable::BadToken);
    }
    if (is_reserved(first) && !is_d(first)) || is_reserved(second) {
        return Ok(Token::Stray);
    }
    Ok(Token::Dotted(whole))
}
