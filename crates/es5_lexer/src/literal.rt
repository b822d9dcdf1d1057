//! Texts in quotes (ECMA-262 5.1, 7.8.4).

ghost use Rattle.std.specs.Prelude.{◌≡◌, IfOk};
ghost use Rattle.es5_lexer.specs.Pieces.{QuotedOrNot};

use crate::escape::character;
use opal_base::{NoMemory, Units};
use std::alloc::Global;

/// The text of a string literal from the byte behind its opening quote on, and how many bytes it
/// has with its closing quote.
pub fn literal(alloc: Global, quote: u8, bytes: &[u8]) -> Result<Option<(Units, usize)>, NoMemory>
    ensures { IfOk result (λ found. QuotedOrNot quote bytes.now found) }
{
    let mut text = Units::new(alloc);
    let mut end = 0;
    'characters: while end < bytes.len() {
        if bytes[end] == quote {
            return Ok(Some((text, end + 1)));
        }
        let Some((unit, size)) = character(quote, &bytes[end..]) else {
            return Ok(None);
        };
        text.push(unit)?;
        end += size;
    }
    Ok(None)
}
