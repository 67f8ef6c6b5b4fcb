/// Why bytes of a line are no token.
#[derive(Clone, Copy, Debug, PartialEq, Eq)]
pub enum Unreadable {
    /// They begin no token, or are a word or a dotted name with a word of more than 32 bytes.
    BadToken,
    /// They are a number above the bound of literals.
    LiteralWide,
}
