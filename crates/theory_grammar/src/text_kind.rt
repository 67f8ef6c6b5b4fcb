/// Why a text is not read.
#[derive(Clone, Copy, Debug, PartialEq, Eq)]
pub enum TextKind {
    /// The text has more than 65,536 bytes, or a line more than 1,024.
    TooLong,
    /// The bytes from here on are no UTF-8.
    NotUtf8,
    /// Bytes that begin no token, or a word of more than 32 bytes.
    BadToken,
    /// No line begins with the tokens up to this one; the end of the line counts as one.
    Unexpected,
    /// A number above 2^58.
    LiteralWide,
    /// The second number of a fraction literal is 0.
    ZeroBelow,
    /// An exponent isn't from 1 to 8.
    Exponent,
    /// A sign would be the 33rd open one.
    Deep,
    /// Want of memory, which is no fault of the text.
    Memory,
}
