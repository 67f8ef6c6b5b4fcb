//! The bytes that fields of rows stand for.

use std::alloc::Global;
use theory_points::Bytes;
use theory_rows_method::fault::RowFault;

/// What was read of an escape.
#[derive(Clone, Copy)]
enum Escape {
    None,
    Open,
    Hex,
    HexAfter(u8),
}

/// The bytes that a field stands for: `\n`, `\t`, `\r`, `\\` and `\xff` are escapes.
pub fn bytes_of(alloc: Global, field: &str) -> Result<Bytes, RowFault> {
    let mut bytes = Bytes::new(alloc);
    let mut escape = Escape::None;
    for byte in field.bytes() {
        let (next, found) = escaped(escape, byte);
        escape = next;
        if let Some(found) = found {
            bytes.extend(&[found])?;
        }
    }
    Ok(bytes)
}

/// What is read behind the byte, and the byte that is complete with it.
fn escaped(escape: Escape, byte: u8) -> (Escape, Option<u8>) {
    match escape {
        Escape::None if byte == b'\\' => (Escape::Open, None),
        Escape::None => (Escape::None, Some(byte)),
        Escape::Open if byte == b'x' => (Escape::Hex, None),
        Escape::Open => (Escape::None, Some(named(byte))),
        Escape::Hex => (Escape::HexAfter(digit(byte)), None),
        Escape::HexAfter(high) => {
            let all = high.wrapping_mul(16).wrapping_add(digit(byte));
            (Escape::None, Some(all))
        }
    }
}

fn named(letter: u8) -> u8 {
    match letter {
        b'n' => b'\n',
        b't' => b'\t',
        b'r' => b'\r',
        _ => letter,
    }
}

/// The value of a hexadecimal digit with small letters.
fn digit(byte: u8) -> u8 {
    match byte {
        b'0'..=b'9' => byte - b'0',
        b'a'..=b'f' => byte - b'a' + 10,
        _ => 0,
    }
}
