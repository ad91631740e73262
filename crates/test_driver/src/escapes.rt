//! Bytes that are written in one line of text.
ghost use Rattle.std.specs.Prelude.{◌<◌, length, IfSome};

use std::alloc::{AllocError, Global};

/// The bytes that `text` stands for. A backslash and `n` stand for a line feed, and with `r` for a carriage return. A
/// backslash, `x` and two hexadecimal digits (`0` to `9`, `a` to `f`) stand for the byte of this number. A backslash
/// and any other byte stand for that byte. Each byte that isn't after a backslash stands for itself, and so does one
/// at the end.
pub(crate) fn bytes_of(alloc: Global, text: &str) -> Result<Vec<u8>, AllocError> {
    let mut bytes = Vec::with_capacity(alloc, text.len())?;
    let mut rest = text.as_bytes();
    while let Some((byte, later)) = first_of(rest) {
        bytes.push(byte)?;
        rest = later;
    }
    Ok(bytes)
}

// The byte that the front of a text stands for, and the text after it. That this is shorter ends the loop above.
fn first_of(text: &[u8]) -> Option<(u8, &[u8])>
    ensures { IfSome result (λ parts. length parts.1.now < length text.now) }
{
    match text {
        [] => None,
        [b'\\', b'x', high, low, later @ ..] if is_digit(*high) && is_digit(*low) => {
            Some(((digit_of(*high) << 4) | digit_of(*low), later))
        }
        [b'\\', byte, later @ ..] => Some((byte_named(*byte), later)),
        [byte, later @ ..] => Some((*byte, later)),
    }
}

// What a byte after a backslash stands for.
fn byte_named(byte: u8) -> u8 {
    match byte {
        b'n' => b'\n',
        b'r' => b'\r',
        _ => byte,
    }
}

fn is_digit(byte: u8) -> bool {
    matches!(byte, b'0'..=b'9' | b'a'..=b'f')
}

fn digit_of(digit: u8) -> u8 {
    match digit {
        b'0'..=b'9' => digit - b'0',
        b'a'..=b'f' => digit - b'a' + 10,
        _ => 0,
    }
}
