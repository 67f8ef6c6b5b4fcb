ghost use Rattle.std.specs.Prelude.{◌≡◌};
ghost use Rattle.std.specs.List.{list_all};
ghost use Rattle.theory_session.specs.Row as plain;

use theory_points::Name;

/// Whether it is 1 to 64 letters, digits, hyphens and underlines, as a change requires.
pub fn is_request_id(id: &Name) -> bool
    ensures { result ≡ plain.is_request_id id.now }
{
    let bytes = id.as_slice();
    1 <= bytes.len() && bytes.len() <= 64 && are_id_bytes(bytes)
}

fn are_id_bytes(bytes: &[u8]) -> bool
    ensures { result ≡ list_all plain.is_id_byte bytes.now }
{
    for byte in bytes {
        if !is_id_byte(*byte) {
            return false;
        }
    }
    true
}

fn is_id_byte(byte: u8) -> bool
    ensures { result ≡ plain.is_id_byte byte }
{
    byte.is_ascii_alphabetic() || byte.is_ascii_digit() || byte == b'-' || byte == b'_'
}
