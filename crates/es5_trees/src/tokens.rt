//! Tokens as lines of text.

use es5_lexer::es_lex;
use es5_tree::{EsStop, EsTokenKind, is_reserved};
use opal_base::Units;
use std::alloc::{AllocError, Global};

const MOST_BYTES: usize = 1_000;

/// The tokens with a blank behind each, or the place where none begins.
pub fn tokens(alloc: Global, bytes: &[u8]) -> Result<String, AllocError> {
    if MOST_BYTES < bytes.len() {
        return String::from_str(alloc, "too long");
    }
    match es_lex(alloc, bytes) {
        Ok(tokens) => {
            let mut shown = String::new(alloc);
            for token in tokens.as_slice() {
                push_kind(alloc, &mut shown, &token.kind)?;
                shown.push(' ')?;
            }
            Ok(shown)
        }
        Err(EsStop::NotScript { pos }) => {
            let (line, col) = (pos.line, pos.col);
            format!(in alloc; "{line}:{col}")
        }
        Err(EsStop::NoMemory) => Err(AllocError),
    }
}

fn push_kind(alloc: Global, shown: &mut String, kind: &EsTokenKind) -> Result<(), AllocError> {
    match kind {
        EsTokenKind::Word(name) => push_units(alloc, shown, name.as_slice()),
        EsTokenKind::Num(value) => {
            let number = value.value();
            let digits = format!(in alloc; "{number}")?;
            shown.push_str(digits.as_str())
        }
        EsTokenKind::Str(text) => {
            shown.push('"')?;
            push_units(alloc, shown, text.as_slice())?;
            shown.push('"')
        }
        EsTokenKind::Mark(mark) => {
            let name = format!(in alloc; "{mark:?}")?;
            shown.push_str(name.as_str())
        }
        EsTokenKind::End => shown.push('.'),
    }
}

/// Printable characters of ASCII as they are, and other units by their hexadecimal digits.
fn push_units(alloc: Global, shown: &mut String, units: &[u16]) -> Result<(), AllocError> {
    for unit in units {
        match *unit {
            32..=91 | 93..=126 => shown.push(char::from(*unit as u8))?,
            unit => {
                let code = format!(in alloc; "\\x{unit:02x}")?;
                shown.push_str(code.as_str())?;
            }
        }
    }
    Ok(())
}

/// Whether the text is a reserved word.
pub fn reserved(alloc: Global, bytes: &[u8]) -> Result<String, AllocError> {
    let mut name = Units::new(alloc);
    for byte in bytes {
        if name.push(u16::from(*byte)).is_err() {
            return Err(AllocError);
        }
    }
    String::from_str(alloc, if is_reserved(&name) { "true" } else { "false" })
}
