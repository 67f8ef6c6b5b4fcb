//! Words, signs and relations as a text has them.

use theory_grammar::{Keyword, Mark};
use theory_meaning::Rel;

pub fn keyword(word: Keyword) -> &'static str {
    match word {
        Keyword::Model => "model",
        Keyword::Var => "var",
        Keyword::Param => "param",
        Keyword::Fun => "fun",
        Keyword::Of => "of",
        Keyword::Eq => "eq",
        Keyword::Assume => "assume",
        Keyword::Claim => "claim",
        Keyword::By => "by",
        Keyword::Not => "not",
        Keyword::And => "and",
        Keyword::Or => "or",
        Keyword::Implies => "implies",
        Keyword::Iff => "iff",
        Keyword::True => "true",
        Keyword::False => "false",
    }
}

pub fn mark(mark: Mark) -> &'static str {
    match mark {
        Mark::Open => "(",
        Mark::Close => ")",
        Mark::OpenSquare => "[",
        Mark::CloseSquare => "]",
        Mark::Plus => "+",
        Mark::Minus => "-",
        Mark::Times => "*",
        Mark::Over => "/",
        Mark::Power => "^",
        Mark::Colon => ":",
    }
}

pub fn relation(rel: Rel) -> &'static str {
    match rel {
        Rel::Eq => "=",
        Rel::Ne => "!=",
        Rel::Lt => "<",
        Rel::Le => "<=",
        Rel::Gt => ">",
        Rel::Ge => ">=",
    }
}
