ghost use Rattle.std.specs.Prelude.{◌≡◌, ◌∷◌, ◌-◌, ◌≤◌, ◌==◌, false, true, IfSome, None, MatchOption, length, take};
ghost use Rattle.theory_meaning.specs.Identifier.{is_letter, is_digit};
ghost use Rattle.theory_grammar.specs.Runs.{first_passes, begins_a_dotted_part};
ghost use Rattle.theory_grammar.specs.Signs.{mark_byte};
ghost use Rattle.theory_grammar.specs.Scan.{is_blank};
ghost use Rattle.theory_tokens.specs.Next.{meaning_of, IsNext, IsFoundAs, IsPart, BeginsNoWord, IsNoMark};

use crate::number::number_token;
use crate::run::{Kind, is_letter, split_byte, split_run};
use crate::token::Token;
use crate::word::{pair_token, word_token};
use theory_grammar::{Mark, Unreadable};
use theory_meaning::Rel;

/// What stands first, where no blank does.
#[derive(Clone, Copy, Debug)]
pub enum Next<'a> {
    /// A token, and the bytes behind it.
    Found(Token<'a>, &'a [u8]),
    /// The end of the line or a comment.
    Over,
    /// Bytes that can't be read.
    Bad(Unreadable),
}

/// What stands first on bytes that begin with no blank.
pub fn next_token(bytes: &[u8]) -> Next<'_>
    requires { first_passes is_blank bytes.now ≡ false }
    ensures { IsNext bytes.now result }
{
    match split_byte(bytes) {
        None => Next::Over,
        Some((first, behind)) => {
            if first == b'#' {
                Next::Over
            } else if is_letter(first) {
                word_first(bytes)
            } else if first.is_ascii_digit() {
                digits_first(bytes)
            } else {
                sign_first(first, behind)
            }
        }
    }
}

// A token that was read, and the bytes behind it, or the reason that there is none.
fn found<'a>(token: Result<Token<'a>, Unreadable>, behind: &'a [u8]) -> Next<'a>
    ensures { IsFoundAs (meaning_of token.entry) behind.now result }
{
    match token {
        Ok(token) => Next::Found(token, behind),
        Err(why) => Next::Bad(why),
    }
}

fn word_first(bytes: &[u8]) -> Next<'_>
    requires { first_passes is_letter bytes.now ≡ true }
    ensures { IsNext bytes.now result }
{
    let (word, rest) = split_run(Kind::WordByte, bytes);
    match dotted_part(rest) {
        None => found(word_token(word), rest),
        Some(part) => {
            let (second, behind) = split_run(Kind::WordByte, part);
            let whole = before(bytes, behind);
            found(pair_token(word, second, whole), behind)
        }
    }
}

// The bytes behind a dot that a letter follows.
fn dotted_part(bytes: &[u8]) -> Option<&[u8]>
    ensures { MatchOption result (begins_a_dotted_part bytes.now ≡ false)
        (λ part. IsPart part.now bytes.now) }
{
    match split_byte(bytes) {
        Some((b'.', behind)) => if begins_with_letter(behind) {
            Some(behind)
        } else {
            None
        },
        _ => None,
    }
}

fn begins_with_letter(bytes: &[u8]) -> bool
    ensures { result ≡ first_passes is_letter bytes.now }
{
    !bytes.is_empty() && is_letter(bytes[0])
}

// The bytes without those at their end.
fn before<'a>(bytes: &'a [u8], behind: &[u8]) -> &'a [u8]
    requires { length behind.now ≤ length bytes.now }
    ensures { result.now ≡ take (length bytes.now - length behind.now) bytes.now }
{
    &bytes[..bytes.len() - behind.len()]
}

fn digits_first(bytes: &[u8]) -> Next<'_>
    requires { first_passes is_digit bytes.now ≡ true }
    ensures { IsNext bytes.now result }
{
    let (digits, rest) = split_run(Kind::Digit, bytes);
    found(number_token(digits), rest)
}

// A mark or a comparison, given its first byte and the bytes behind that.
fn sign_first<'a>(first: u8, behind: &'a [u8]) -> Next<'a>
    requires { BeginsNoWord first }
    ensures { IsNext (first ∷ behind.now) result }
{
    match mark(first) {
        Some(mark) => Next::Found(Token::Mark(mark), behind),
        None => comparison_first(first, behind),
    }
}

fn mark(byte: u8) -> Option<Mark>
    ensures { MatchOption result (IsNoMark byte) (λ m. byte ≡ mark_byte m) }
{
    match byte {
        b'(' => Some(Mark::Open),
        b')' => Some(Mark::Close),
        b'[' => Some(Mark::OpenSquare),
        b']' => Some(Mark::CloseSquare),
        b'+' => Some(Mark::Plus),
        b'-' => Some(Mark::Minus),
        b'*' => Some(Mark::Times),
        b'/' => Some(Mark::Over),
        b'^' => Some(Mark::Power),
        b':' => Some(Mark::Colon),
        _ => None,
    }
}

fn comparison_first<'a>(first: u8, behind: &'a [u8]) -> Next<'a>
    requires word { BeginsNoWord first }
    requires mark { IsNoMark first }
    ensures { IsNext (first ∷ behind.now) result }
{
    match (first, behind_equals(behind)) {
        (b'=', _) => Next::Found(Token::Relation(Rel::Eq), behind),
        (b'!', Some(rest)) => Next::Found(Token::Relation(Rel::Ne), rest),
        (b'<', Some(rest)) => Next::Found(Token::Relation(Rel::Le), rest),
        (b'<', None) => Next::Found(Token::Relation(Rel::Lt), behind),
        (b'>', Some(rest)) => Next::Found(Token::Relation(Rel::Ge), rest),
        (b'>', None) => Next::Found(Token::Relation(Rel::Gt), behind),
        _ => Next::Bad(Unreadable::BadToken),
    }
}

// The bytes behind an equals sign at the front.
fn behind_equals(bytes: &[u8]) -> Option<&[u8]>
    ensures some { IfSome result (λ rest. bytes.now ≡ 61 ∷ rest.now) }
    ensures none { result ≡ None → first_passes (λ b. b == 61) bytes.now ≡ false }
{
    match split_byte(bytes) {
        Some((b'=', rest)) => Some(rest),
        _ => None,
    }
}
