//! Bytes in a line.
use std::alloc::AllocError;

fn push_byte(line: &mut String, byte: u8) -> Result<(), AllocError> {
    match byte {
        b'\\' => line.push_str("\\x5c"),
        b' '..=b'~' => line.push(char::from(byte)),
        _ => write!(line, "\\x{byte:02x}"),
    }
}

/// Appends `text` to `line` without line breaks: each byte that is no printable character of ASCII, or a backslash,
/// in two digits.
pub(crate) fn push_shown(line: &mut String, text: &str) -> Result<(), AllocError> {
    for byte in text.as_bytes() {
        push_byte(line, *byte)?;
    }
    Ok(())
}

/// Appends `bytes` to `line` in hexadecimal digits.
pub(crate) fn push_bytes(line: &mut String, bytes: &[u8]) -> Result<(), AllocError> {
    line.push_str("0x")?;
    for byte in bytes {
        write!(line, "{byte:02x}")?;
    }
    Ok(())
}

/// Appends `bytes` to `line` in hexadecimal digits after `name`, if there are any.
pub(crate) fn push_named(line: &mut String, name: &str, bytes: &[u8]) -> Result<(), AllocError> {
    if bytes.is_empty() {
        return Ok(());
    }
    write!(line, " {name}=")?;
    push_bytes(line, bytes)
}
