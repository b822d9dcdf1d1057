//! What a byte may begin, and runs of bytes.

ghost use Rattle.std.specs.Prelude.{◌≡◌, ◌≤◌, length};
ghost use Rattle.std.specs.List.{prefix_len};
ghost use Rattle.es5_tree.specs.Characters as spec;

use es5_tree::Class;

/// White space and line terminators (ECMA-262 5.1, 7.2 and 7.3).
fn is_blank(byte: u8) -> bool
    ensures { result ≡ spec.is_blank byte }
{
    (b'\t' <= byte && byte <= b'\r') || byte == b' '
}

/// Line feed and carriage return (ECMA-262 5.1, 7.3).
pub fn ends_line(byte: u8) -> bool
    ensures { result ≡ spec.ends_line byte }
{
    byte == b'\n' || byte == b'\r'
}

/// ASCII letters, `$` and `_`.
pub fn is_letter(byte: u8) -> bool
    ensures { result ≡ spec.is_letter byte }
{
    (b'a' <= byte && byte <= b'z') || (b'A' <= byte && byte <= b'Z') || byte == b'$' || byte == b'_'
}

/// Decimal digits.
pub fn is_digit(byte: u8) -> bool
    ensures { result ≡ spec.is_digit byte }
{
    b'0' <= byte && byte <= b'9'
}

fn is_name_part(byte: u8) -> bool
    ensures { result ≡ spec.is_name_part byte }
{
    is_letter(byte) || is_digit(byte)
}

fn is_quote(byte: u8) -> bool
    ensures { result ≡ spec.is_quote byte }
{
    byte == b'"' || byte == b'\''
}

/// What a byte may begin.
pub fn class_of(byte: u8) -> Class
    ensures { result ≡ spec.class_of byte }
{
    if is_blank(byte) {
        Class::Blank
    } else if is_letter(byte) {
        Class::Letter
    } else if is_digit(byte) {
        Class::Digit
    } else if is_quote(byte) {
        Class::Quote
    } else {
        Class::Other
    }
}

/// How many parts of a name stand at the front (ECMA-262 5.1, 7.6).
pub fn name_size(bytes: &[u8]) -> usize
    ensures value { result ≡ prefix_len spec.is_name_part bytes.now }
    ensures within { result ≤ length bytes.now }
{
    bytes.iter().take_while(|byte| is_name_part(**byte)).count()
}

/// How many digits stand at the front.
pub fn digits_size(bytes: &[u8]) -> usize
    ensures value { result ≡ prefix_len spec.is_digit bytes.now }
    ensures within { result ≤ length bytes.now }
{
    bytes.iter().take_while(|byte| is_digit(**byte)).count()
}
