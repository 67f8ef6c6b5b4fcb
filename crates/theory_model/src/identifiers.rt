ghost use Rattle.std.specs.Prelude.{◌≡◌, [], ◌∷◌, map, MatchBool};
ghost use Rattle.std.specs.List.{AllByRecursion, list_all, list_any};
ghost use Rattle.std.specs.Str.{bytes_eq};
ghost use Rattle.theory_meaning.specs.Edit.{HasIdentifiers, HaveIdentifiers, PutsIdentifiers};
ghost use Rattle.theory_meaning.specs.Identifier as plain;
ghost use Rattle.theory_meaning.specs.Identifier.{IsIdentifier};
ghost use Rattle.theory_syntax.specs.Plain.{line_of, lines_of, ops_of};

use theory_points::Name;
use theory_syntax::{Line, Numbered, Op};

/// The greatest number of bytes of an identifier.
const LONGEST_NAME: usize = 32;

/// The words that name nothing.
const RESERVED: [&[u8]; 17] = [
    b"model", b"var", b"param", b"fun", b"of", b"eq", b"assume", b"claim", b"by", b"not", b"and",
    b"or", b"implies", b"iff", b"true", b"false", b"d",
];

/// Whether the names that lines declare are identifiers, as a check requires.
pub fn have_identifiers(lines: &[Numbered]) -> bool
    ensures { MatchBool result (HaveIdentifiers (lines_of lines.now))
        (¬ HaveIdentifiers (lines_of lines.now)) }
{
    for numbered in lines {
        if !has_identifiers(&numbered.line) {
            return false;
        }
    }
    true
}

/// Whether the names of the lines that are put are identifiers, as an edit requires.
pub fn put_identifiers(ops: &[Op]) -> bool
    ensures { MatchBool result (PutsIdentifiers (ops_of ops.now))
        (¬ PutsIdentifiers (ops_of ops.now)) }
{
    for op in ops {
        if !puts_identifiers(op) {
            return false;
        }
    }
    true
}

fn puts_identifiers(op: &Op) -> bool
    ensures { MatchBool result (PutsIdentifiers (ops_of (op.now ∷ [])))
        (¬ PutsIdentifiers (ops_of (op.now ∷ []))) }
{
    match op {
        Op::Put(line) => has_identifiers(line),
        Op::Drop(_) => true,
    }
}

fn has_identifiers(line: &Line) -> bool
    ensures { MatchBool result (HasIdentifiers (line_of line.now))
        (¬ HasIdentifiers (line_of line.now)) }
{
    match line {
        Line::Model(name) => is_identifier(name),
        Line::Var(name) => is_identifier(name),
        Line::Param(name) => is_identifier(name),
        Line::Fun(name, arguments) => is_identifier(name) && are_identifiers(arguments.as_slice()),
        Line::Eq(label, _, _) => is_identifier(label),
        Line::Assume(label, _) => is_identifier(label),
        Line::Claim(label, None, _) => is_identifier(label),
        Line::Claim(label, Some(shift), _) => is_identifier(label) && is_identifier(shift),
    }
}

fn are_identifiers(names: &[Name]) -> bool
    ensures { MatchBool result (AllByRecursion IsIdentifier names.now)
        (¬ AllByRecursion IsIdentifier names.now) }
{
    for name in names {
        if !is_identifier(name) {
            return false;
        }
    }
    true
}

fn is_identifier(name: &Name) -> bool
    ensures { result ≡ plain.is_identifier name.now }
{
    let bytes = name.as_slice();
    is_word(bytes) && bytes.len() <= LONGEST_NAME && !is_reserved(bytes)
}

/// Whether it is a letter and then letters, digits or underlines.
fn is_word(bytes: &[u8]) -> bool
    ensures { result ≡ plain.is_word bytes.now }
{
    if bytes.is_empty() {
        return false;
    }
    bytes[0].is_ascii_alphabetic() && are_word_bytes(&bytes[1..])
}

fn are_word_bytes(bytes: &[u8]) -> bool
    ensures { result ≡ list_all plain.is_word_byte bytes.now }
{
    for byte in bytes {
        if !is_word_byte(*byte) {
            return false;
        }
    }
    true
}

fn is_word_byte(byte: u8) -> bool
    ensures { result ≡ plain.is_word_byte byte }
{
    byte.is_ascii_alphabetic() || byte.is_ascii_digit() || byte == b'_'
}

fn is_reserved(word: &[u8]) -> bool
    ensures { result ≡ plain.is_reserved word.now }
{
    let words: [&[u8]; 17] = RESERVED;
    is_one_of(word, words.as_slice())
}

fn is_one_of(word: &[u8], words: &[&[u8]]) -> bool
    ensures { result ≡ list_any (bytes_eq word.now) (map (λ w. w.now) words.now) }
{
    for listed in words {
        if word == *listed {
            return true;
        }
    }
    false
}
