//! Tokens: names, numerals and string literals.

ghost use Rattle.std.specs.Prelude.{◌≡◌, ◌<◌, ◌++◌, IfOk, OnOk, ◌∷◌, []};
ghost use Rattle.std.specs.Char.{digit_char};
ghost use Rattle.std.specs.Fmt.{signed_decimal};
ghost use Rattle.opal_base.specs.Text.{utf8_of};
ghost use Rattle.es5_tree.specs.Text.{escaped, literal};
ghost use Rattle.es5_printer.specs.Page as spec;

use crate::page::Page;
use es5_tree::SafeInt;
use opal_base::{Bytes, NoMemory, Units, units_to_utf8};
use std::alloc::Global;

/// A name.
pub fn name(alloc: Global, page: &mut Page, name: &Units) -> Result<(), NoMemory>
    ensures { OnOk result (page.new ≡ spec.with_text (utf8_of name.now) page.old) }
{
    let bytes = units_to_utf8(alloc, name)?;
    page.put(bytes.as_slice())
}

/// A decimal numeral.
pub fn numeral(alloc: Global, page: &mut Page, value: SafeInt) -> Result<(), NoMemory>
    ensures { OnOk result (page.new ≡ spec.with_text (signed_decimal value) page.old) }
{
    let value = value.value();
    match format!(in alloc; "{value}") {
        Ok(digits) => page.put(digits.as_bytes()),
        Err(_) => Err(NoMemory),
    }
}

/// A string literal (ECMA-262 5.1, 7.8.4).
pub fn string(alloc: Global, page: &mut Page, text: &Units) -> Result<(), NoMemory>
    ensures { OnOk result (page.new ≡ spec.with_text (literal text.now) page.old) }
{
    let bytes = literal_of(alloc, text)?;
    page.put(bytes.as_slice())
}

fn literal_of(alloc: Global, text: &Units) -> Result<Bytes, NoMemory>
    ensures { IfOk result (λ bytes. bytes ≡ literal text.now) }
{
    let mut out = Bytes::new(alloc);
    out.push(b'"')?;
    for unit in text.as_slice() {
        put_unit(&mut out, *unit)?;
    }
    out.push(b'"')?;
    Ok(out)
}

// A unit of a string literal.
fn put_unit(out: &mut Bytes, unit: u16) -> Result<(), NoMemory>
    ensures { OnOk result (out.new ≡ out.old ++ escaped unit) }
{
    match unit {
        34 => out.extend(b"\\\""),
        92 => out.extend(b"\\\\"),
        10 => out.extend(b"\\n"),
        13 => out.extend(b"\\r"),
        9 => out.extend(b"\\t"),
        32..=126 => out.push(unit as u8),
        _ => out.extend(&[
            b'\\',
            b'u',
            hex_digit(unit / 4096),
            hex_digit(unit / 256 % 16),
            hex_digit(unit / 16 % 16),
            hex_digit(unit % 16),
        ]),
    }
}

// The lower-case hexadecimal digit of a number.
fn hex_digit(number: u16) -> u8
    requires { number < 16 }
    ensures { result ≡ digit_char number }
{
    if number < 10 {
        b'0' + number as u8
    } else {
        b'a' + (number as u8 - 10)
    }
}
