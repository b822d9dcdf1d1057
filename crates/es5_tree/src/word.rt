//! Words of ASCII characters as units.

ghost use Rattle.std.specs.Prelude.{◌≡◌, bytes_eq, IfOk};

use opal_base::{NoMemory, Units};
use std::alloc::Global;

/// Whether a text is this word.
pub fn is_word(word: &[u8], text: &[u16]) -> bool
    ensures { result ≡ bytes_eq word.now text.now }
{
    let mut bytes = word;
    let mut units = text;
    'units: while let [byte, more @ ..] = bytes {
        let [unit, rest @ ..] = units else {
            return false;
        };
        if u16::from(*byte) != *unit {
            return false;
        }
        bytes = more;
        units = rest;
    }
    units.is_empty()
}

/// The text of these characters, or `NoMemory`.
pub fn word_units(alloc: Global, word: &[u8]) -> Result<Units, NoMemory>
    ensures { IfOk result (λ text. text ≡ word.now) }
{
    let mut text = Units::new(alloc);
    for byte in word {
        text.push(u16::from(*byte))?;
    }
    Ok(text)
}
