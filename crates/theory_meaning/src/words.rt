/// The sign of a number.
#[derive(Clone, Copy, Debug, PartialEq, Eq)]
pub enum Sign {
    Minus,
    Zero,
    Plus,
}

/// A relation between two values, in the order of the signs `=`, `!=`, `<`, `<=`, `>`, `>=`.
#[derive(Clone, Copy, Debug, PartialEq, Eq)]
pub enum Rel {
    Eq,
    Ne,
    Lt,
    Le,
    Gt,
    Ge,
}

/// What the assumptions say of a claim.
#[derive(Clone, Copy, Debug, PartialEq, Eq)]
pub enum Verdict {
    /// Each point that meets the assumptions makes the claim true, and some point meets them.
    Holds,
    /// No point that meets the assumptions makes the claim true, and some point meets them.
    Fails,
    /// No point meets the assumptions.
    Contradictory,
    /// Some points that meet the assumptions make the claim true, and some don't.
    Mixed,
    /// The method got stuck or passed a stated limit.
    Undecided,
}

/// An order in which symbols are eliminated.
#[derive(Clone, Copy, Debug, PartialEq, Eq)]
pub enum Kind {
    /// As the symbols are listed.
    Listed,
    /// The symbol of the fewest atoms first.
    Rare,
    /// A symbol with a constant coefficient in an equation first.
    Unit,
    /// As `Unit`, but the fewest coefficients with symbols before the fewest atoms; simplified by
    /// signs.
    Signed,
}

/// Why a list of lines is no model, in the order in which the kinds are looked for.
#[derive(Clone, Copy, Debug, PartialEq, Eq)]
pub enum ModelKind {
    /// The first line is no model line, or a later one is.
    ModelLine,
    /// An earlier line has the same name or label.
    KeyTwice,
    /// A name in the line is declared nowhere.
    UnknownName,
    /// An argument, slope or derivative doesn't fit what is declared, or an equation holds a slope.
    BadArgument,
    /// A derivative stands where no parameter is shifted.
    NoShift,
    /// The shifted name is declared, but not as a parameter.
    NotParam,
    /// A claim has more than 32 listed symbols.
    TooManySymbols,
    /// There are more than 200 lines.
    TooManyLines,
    /// Want of memory; no line has it.
    Memory,
}
