// Texts of a table, and the bytes that they stand for.
use crate::cause::Cause;
use std::alloc::{AllocError, Global};

/// How far an escape is read.
#[derive(Clone, Copy)]
enum Escape {
    None,
    // a backslash
    Begun,
    // a backslash and an x
    High,
    // and its first digit
    Low(u8),
}

/// The bytes that a text stands for: `\xHH` is the byte of these hexadecimal digits, `\\` is a backslash, `\e` is nothing, and every
/// other byte is itself.
pub fn unescaped(alloc: Global, text: &str) -> Result<Vec<u8>, Cause> {
    let mut bytes = Vec::new(alloc);
    let mut escape = Escape::None;
    for byte in text.bytes() {
        escape = step(escape, byte, &mut bytes)?;
    }
    match escape {
        Escape::None => Ok(bytes),
        _ => Err(Cause::BadEscape),
    }
}

// Reads one byte of a text.
fn step(escape: Escape, byte: u8, bytes: &mut Vec<u8>) -> Result<Escape, Cause> {
    match (escape, byte) {
        (Escape::None, b'\\') => Ok(Escape::Begun),
        (Escape::Begun, b'x') => Ok(Escape::High),
        (Escape::Begun, b'e') => Ok(Escape::None),
        (Escape::None, _) | (Escape::Begun, b'\\') => {
            bytes.push(byte)?;
            Ok(Escape::None)
        }
        (Escape::Begun, _) => Err(Cause::BadEscape),
        (Escape::High, _) => Ok(Escape::Low(digit(byte)?)),
        (Escape::Low(high), _) => {
            bytes.push((high << 4) | digit(byte)?)?;
            Ok(Escape::None)
        }
    }
}

// The value of a hexadecimal digit.
fn digit(byte: u8) -> Result<u8, Cause> {
    match byte {
        b'0'..=b'9' => Ok(byte - b'0'),
        b'a'..=b'f' => Ok(byte - b'a' + 10),
        _ => Err(Cause::NotHex),
    }
}

/// Bytes as a table writes them.
pub fn escaped(alloc: Global, bytes: &[u8]) -> Result<String, AllocError> {
    let mut text = String::new(alloc);
    for byte in bytes {
        push_escaped(&mut text, *byte)?;
    }
    Ok(text)
}

// Writes a byte as a table does.
fn push_escaped(text: &mut String, byte: u8) -> Result<(), AllocError> {
    match byte {
        b'\\' => text.push_str("\\\\"),
        b' '..=b'~' => text.push(char::from(byte)),
        _ => write!(text, "\\x{byte:02x}"),
    }
}
