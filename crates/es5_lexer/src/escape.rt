//! The characters of string literals (ECMA-262 5.1, 7.8.4).

ghost use Rattle.std.specs.Prelude.{◌≡◌, ◌+◌, ◌≤◌, ◌<◌, length, IfSome};
ghost use Rattle.es5_tree.specs.Literals as spec;

use crate::class::{ends_line, is_digit};

fn hex_value(byte: u8) -> Option<u16>
    ensures value { result ≡ spec.hex_value byte }
    ensures small { IfSome result (λ digit. digit < 16) }
{
    if is_digit(byte) {
        Some(u16::from(byte - b'0'))
    } else if b'a' <= byte && byte <= b'f' {
        Some(u16::from(byte - b'a' + 10))
    } else if b'A' <= byte && byte <= b'F' {
        Some(u16::from(byte - b'A' + 10))
    } else {
        None
    }
}

/// The number that two hexadecimal digits spell.
fn two_digits(bytes: &[u8]) -> Option<u16>
    ensures value { result ≡ spec.hex_number 0 2 bytes.now }
    ensures within { IfSome result (λ number. 2 ≤ length bytes.now) }
{
    let [first, second, ..] = bytes else {
        return None;
    };
    let high = hex_value(*first)?;
    let low = hex_value(*second)?;
    Some(high * 16 + low)
}

/// The number that four hexadecimal digits spell.
fn four_digits(bytes: &[u8]) -> Option<u16>
    ensures value { result ≡ spec.hex_number 0 4 bytes.now }
    ensures within { IfSome result (λ number. 4 ≤ length bytes.now) }
{
    let [first, second, third, fourth, ..] = bytes else {
        return None;
    };
    let first = hex_value(*first)?;
    let second = hex_value(*second)?;
    let third = hex_value(*third)?;
    let fourth = hex_value(*fourth)?;
    Some(((first * 16 + second) * 16 + third) * 16 + fourth)
}

/// The unit that a single character behind a backslash stands for.
fn single_escape(byte: u8) -> Option<u16>
    ensures { result ≡ spec.single_escape byte }
{
    match byte {
        b'b' => Some(8),
        b't' => Some(9),
        b'n' => Some(10),
        b'v' => Some(11),
        b'f' => Some(12),
        b'r' => Some(13),
        b'\\' | b'\'' | b'"' => Some(u16::from(byte)),
        _ => None,
    }
}

fn begins_with_digit(bytes: &[u8]) -> bool
    ensures { result ≡ spec.begins_with_digit bytes.now }
{
    match bytes {
        [byte, ..] => is_digit(*byte),
        [] => false,
    }
}

/// The unit of an escape, from the byte behind its backslash on, and how many bytes it has with
/// its backslash.
fn escape(bytes: &[u8]) -> Option<(u16, usize)>
    ensures value { result ≡ spec.escape bytes.now }
    ensures some { IfSome result (λ p. 0 < p.1) }
    ensures within { IfSome result (λ p. p.1 ≤ length bytes.now + 1) }
{
    let [byte, more @ ..] = bytes else {
        return None;
    };
    match *byte {
        b'u' => Some((four_digits(more)?, 6)),
        b'x' => Some((two_digits(more)?, 4)),
        b'0' if begins_with_digit(more) => None,
        b'0' => Some((0, 2)),
        _ => Some((single_escape(*byte)?, 2)),
    }
}

/// The unit of the character at the front of a literal's text, and how many bytes spell it; none
/// at the closing quote and where no character stands.
#[tactic(auto, unfolding(es5_tree::specs::Literals::character))]
pub fn character(quote: u8, bytes: &[u8]) -> Option<(u16, usize)>
    ensures value { result ≡ spec.character quote bytes.now }
    ensures some { IfSome result (λ p. 0 < p.1) }
    ensures within { IfSome result (λ p. p.1 ≤ length bytes.now) }
{
    let [byte, more @ ..] = bytes else {
        return None;
    };
    if *byte == b'\\' {
        escape(more)
    } else if *byte == quote || ends_line(*byte) || !byte.is_ascii() {
        None
    } else {
        Some((u16::from(*byte), 1))
    }
}
