ghost use Rattle.std.specs.Prelude.{◌<◌, length};
ghost use Rattle.theory_text.specs.Cut.{IsBeforeFeed, CutsFirst};

/// The bytes before the first line feed, and those from it on.
pub fn split_at_feed(bytes: &[u8]) -> (&[u8], &[u8])
    ensures { IsBeforeFeed result.0.now result.1.now bytes.now }
{
    for (i, byte) in bytes.iter().enumerate() {
        if *byte == b'\n' {
            return bytes.split_at(i);
        }
    }
    let length = bytes.len();
    bytes.split_at(length)
}

/// The first line, and the bytes behind its line feed or at the end.
pub fn split_line(bytes: &[u8]) -> (&[u8], &[u8])
    requires some { 0 < length bytes.now }
    ensures { CutsFirst result.0.now result.1.now bytes.now }
{
    let (line, rest) = split_at_feed(bytes);
    match rest {
        [_, behind @ ..] => (line, behind),
        [] => (line, rest),
    }
}
