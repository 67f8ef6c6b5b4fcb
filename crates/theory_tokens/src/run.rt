ghost use Rattle.std.specs.Prelude.{◌≡◌, [], ◌∷◌, MatchOption};
ghost use Rattle.theory_meaning.specs.Identifier.{is_letter};
ghost use Rattle.theory_grammar.specs.Runs.{IsRun};
ghost use Rattle.theory_tokens.specs.Next.{kind_test};

/// A kind of bytes of which several stand in a row.
#[derive(Clone, Copy, Debug)]
pub enum Kind {
    Blank,
    WordByte,
    Digit,
}

impl Kind {
    fn has(self, byte: u8) -> bool
        ensures { result ≡ kind_test self byte }
    {
        match self {
            Kind::Blank => byte == b' ' || byte == b'\t' || byte == b'\r',
            Kind::WordByte => is_letter(byte) || byte.is_ascii_digit() || byte == b'_',
            Kind::Digit => byte.is_ascii_digit(),
        }
    }
}

pub fn is_letter(byte: u8) -> bool
    ensures { result ≡ is_letter byte }
{
    byte.is_ascii_alphabetic()
}

/// The bytes of the kind at the front, and the bytes behind them.
pub fn split_run(kind: Kind, bytes: &[u8]) -> (&[u8], &[u8])
    ensures { IsRun (kind_test kind) result.0.now result.1.now bytes.now }
{
    for (i, byte) in bytes.iter().enumerate() {
        if !kind.has(*byte) {
            return bytes.split_at(i);
        }
    }
    let length = bytes.len();
    bytes.split_at(length)
}

/// The first byte, and the bytes behind it.
pub fn split_byte(bytes: &[u8]) -> Option<(u8, &[u8])>
    ensures { MatchOption result (bytes.now ≡ []) (λ p. bytes.now ≡ p.0 ∷ p.1.now) }
{
    if bytes.is_empty() {
        return None;
    }
    Some((bytes[0], &bytes[1..]))
}
