//! Shows the tokens of Ruby texts. Each line of standard input is a word, a blank and a text with
//! the escapes `\n`, `\xHH` and `\\`; standard output takes a line for each of them:
//!
//! - `tokens`: the tokens with a blank between each two, but for the end. A token is a letter for
//!   its kind and what it carries, where a unit that is no visible character of ASCII is written as
//!   its number; `;` is a newline, and `<`, `>`, `{` and `}` are the ends of a text and of an
//!   embedded part. Or `!CONSTRUCT LINE:COLUMN`, both from 0, where the text is refused;
//! - `places`: of each token the first unit and the one behind the last, and their places; `_`
//!   stands where a blank stands directly before or behind it.
#![tactic(auto)]

mod escapes;
mod show;

ghost use Rattle.std.specs.Prelude.{◌<◌, ◌^◌, length};

use crate::escapes::unescaped;
use crate::show::{push_places, push_tokens};
use opal_base::{Pos, Units, decoded_fits, utf8_to_units};
use ruby_lexer::lex;
use ruby_meaning::{Construct, Stop};
use std::alloc::{AllocError, Global};
use std::io::{self, Write};

/// The longest text, in bytes.
const MOST_BYTES: usize = 1_000;

fn main(rt: HostRuntime) -> io::Result<()> {
    let alloc = rt.alloc();
    let input = io::read_to_string(alloc, rt.stdin())?;
    let mut out = rt.stdout();
    for row in input.as_str().split("\n") {
        let (word, text) = match row.split_once(" ") {
            Some((word, text)) => (word, text),
            None => (row, ""),
        };
        if !word.is_empty() {
            let line = answer(alloc, word, text)?;
            out.write_all(line.as_bytes())?;
            out.write_all(b"\n")?;
        }
    }
    Ok(())
}

fn answer(alloc: Global, word: &str, text: &str) -> Result<String, AllocError> {
    let bytes = unescaped(alloc, text)?;
    if MOST_BYTES < bytes.len() {
        return String::from_str(alloc, "too long");
    }
    decoded_fits();
    let Ok(units) = utf8_to_units(alloc, &bytes) else {
        return String::from_str(alloc, "bad byte");
    };
    match word {
        "tokens" => shown(alloc, &units, false),
        "places" => shown(alloc, &units, true),
        _ => String::from_str(alloc, "no such word"),
    }
}

// The tokens of a text, or their places, or its refusal.
fn shown(alloc: Global, text: &Units, places: bool) -> Result<String, AllocError>
    requires short { length text.now < 2 ^ 31 }
{
    let mut line = String::new(alloc);
    match lex(alloc, text) {
        Ok(tokens) => {
            if places {
                push_places(&mut line, &tokens)?;
            } else {
                push_tokens(&mut line, &tokens)?;
            }
        }
        Err(Stop::Refused { pos, construct }) => push_refusal(&mut line, pos, construct)?,
        Err(Stop::NoMemory) => return Err(AllocError),
    }
    Ok(line)
}

fn push_refusal(line: &mut String, pos: Pos, construct: Construct) -> Result<(), AllocError> {
    let name = construct.name();
    let (row, col) = (pos.line, pos.col);
    write!(line, "!{name} {row}:{col}")
}
