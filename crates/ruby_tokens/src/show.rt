//! Tokens as text.

use opal_base::Units;
use ruby_meaning::{Token, TokenKind, Tokens};
use std::alloc::AllocError;

type Done = Result<(), AllocError>;

/// Writes tokens with a blank between each two, but for the end.
pub fn push_tokens(line: &mut String, tokens: &Tokens) -> Done {
    for i in 0..tokens.len() {
        let token = tokens.at(i);
        if is_eof(token) {
            break;
        }
        if 0 < i {
            line.push(' ')?;
        }
        push_kind(line, &token.kind)?;
    }
    Ok(())
}

fn is_eof(token: &Token) -> bool {
    matches!(token.kind, TokenKind::Eof)
}

// The letter of a kind and what the token carries.
fn push_kind(line: &mut String, kind: &TokenKind) -> Done {
    match kind {
        TokenKind::Name(units) => push_units(line, "n:", units),
        TokenKind::Const(units) => push_units(line, "c:", units),
        TokenKind::Ivar(units) => push_units(line, "i:", units),
        TokenKind::Gvar(units) => push_units(line, "g:", units),
        TokenKind::Label(units) => push_units(line, "l:", units),
        TokenKind::Text(units) => push_units(line, "t:", units),
        TokenKind::Keyword(word) => write!(line, "k:{word:?}"),
        TokenKind::Op(mark) => write!(line, "o:{mark:?}"),
        TokenKind::Int(value) => write!(line, "#:{value}"),
        TokenKind::TextBegin => line.push('<'),
        TokenKind::TextEnd => line.push('>'),
        TokenKind::PartBegin => line.push('{'),
        TokenKind::PartEnd => line.push('}'),
        TokenKind::Newline => line.push(';'),
        TokenKind::Eof => line.push('.'),
    }
}

fn push_units(line: &mut String, letter: &str, units: &Units) -> Done {
    line.push_str(letter)?;
    for unit in units.as_slice() {
        push_unit(line, *unit)?;
    }
    Ok(())
}

// A backslash and what isn't a visible ASCII character are written by their numbers.
fn push_unit(line: &mut String, unit: u16) -> Done {
    match unit {
        33..=91 | 93..=126 => line.push(char::from(unit as u8)),
        _ => write!(line, "\\{unit:x}."),
    }
}

/// Writes the span, the two places and the two flags of each token.
pub fn push_places(line: &mut String, tokens: &Tokens) -> Done {
    for i in 0..tokens.len() {
        push_place(line, tokens.at(i))?;
    }
    Ok(())
}

fn push_place(line: &mut String, token: &Token) -> Done {
    let (from, to) = (token.from, token.to);
    let (row, col) = (token.pos.line, token.pos.col);
    let (last_row, last_col) = (token.end.line, token.end.col);
    let before = if token.blank_before { "_" } else { "" };
    let behind = if token.blank_after { "_" } else { "" };
    write!(
        line,
        "{before}{from}-{to}@{row}:{col}-{last_row}:{last_col}{behind};"
    )
}
