//! Bytes in lines of printable characters.

ghost use Rattle.std.specs.Prelude.{◌<◌};

use std::alloc::{AllocError, Global};

/// The bytes of a text in which `\n` stands for a line feed, `\xHH` for the byte of two
/// hexadecimal digits, and a backslash before another byte for that byte.
pub fn unescaped(alloc: Global, text: &str) -> Result<Vec<u8>, AllocError> {
    let mut bytes = Vec::new(alloc);
    let mut rest = text.as_bytes();
    for _ in 0..text.len() {
        let Some((byte, behind)) = first(rest) else {
            break;
        };
        bytes.push(byte)?;
        rest = behind;
    }
    Ok(bytes)
}

/// The first byte that is meant, and what stands behind it.
fn first(bytes: &[u8]) -> Option<(u8, &[u8])> {
    match bytes {
        [b'\\', b'n', behind @ ..] => Some((b'\n', behind)),
        [b'\\', b'x', high, low, behind @ ..] => Some((digit(*high) * 16 + digit(*low), behind)),
        [b'\\', byte, behind @ ..] => Some((*byte, behind)),
        [byte, behind @ ..] => Some((*byte, behind)),
        [] => None,
    }
}

/// A hexadecimal digit; 0 for another byte.
fn digit(byte: u8) -> u8
    ensures below { result < 16 }
{
    match byte {
        b'0'..=b'9' => byte - b'0',
        b'a'..=b'f' => byte - b'a' + 10,
        _ => 0,
    }
}
