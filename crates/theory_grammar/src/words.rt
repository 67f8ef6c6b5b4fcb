/// A reserved word that has a place in some line.
#[derive(Clone, Copy, Debug, PartialEq, Eq)]
pub enum Keyword {
    Model,
    Var,
    Param,
    Fun,
    Of,
    Eq,
    Assume,
    Claim,
    By,
    Not,
    And,
    Or,
    Implies,
    Iff,
    True,
    False,
}

/// A sign that is no relation.
#[derive(Clone, Copy, Debug, PartialEq, Eq)]
pub enum Mark {
    /// `(`
    Open,
    /// `)`
    Close,
    /// `[`
    OpenSquare,
    /// `]`
    CloseSquare,
    /// `+`
    Plus,
    /// `-`
    Minus,
    /// `*`
    Times,
    /// `/`
    Over,
    /// `^`
    Power,
    /// `:`
    Colon,
}

/// Why the tokens of a line can't go on.
#[derive(Clone, Copy, Debug, PartialEq, Eq)]
pub enum LineFaultKind {
    /// No line begins with the tokens up to this one.
    Unexpected,
    /// The second number of a fraction literal is 0.
    ZeroBelow,
    /// An exponent isn't from 1 to 8.
    Exponent,
    /// A sign would be the 33rd open one.
    Deep,
}
