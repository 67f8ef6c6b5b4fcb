use theory_grammar::{Keyword, Mark};
use theory_meaning::Rel;

/// A token of a line: its words are bytes of the line itself.
#[derive(Clone, Copy, Debug)]
pub enum Token<'a> {
    /// A reserved word but `d`.
    Keyword(Keyword),
    /// An identifier: a word of at most 32 bytes that isn't reserved.
    Name(&'a [u8]),
    /// Two identifiers joined by a dot, or `d` and an identifier: the bytes of the whole.
    Dotted(&'a [u8]),
    /// The number that digits stand for, at most the bound of literals where a line was scanned.
    Number(u64),
    Mark(Mark),
    Relation(Rel),
    /// `d` alone, or a dotted name with a reserved word in any other way: no line has it.
    Stray,
}
