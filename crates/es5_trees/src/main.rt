//! Shows the tokens and the trees of scripts. Each line of standard input is a word, a blank and a text with the
//! escapes `\n`, `\xHH` and `\\`:
//!
//! - `tokens`: standard output takes the tokens of the text with a blank behind each: words and
//!   numbers as they are, texts in quotation marks, signs by their names, the end as a full stop;
//! - `reserved`: `true` where the text is a reserved word, else `false`;
//! - `script` or `places`, and what stands behind the directive: standard output takes the shape of
//!   the script (module `shapes`), with the columns of its expressions for `places`;
//! - `file`, and the whole text of a script: its shape;
//! - `deep`, and a number, a beginning, an opening, a middle, a closing and an end with a `#` behind
//!   each but the last: the depth of the script with the opening and the closing that many times.
//!
//! Where the text has no tokens or spells no script, standard output takes `LINE:COLUMN`, both from 0, the directive
//! counted.
#![tactic(auto)]

mod escapes;
mod shapes;
mod tokens;

use crate::escapes::unescaped;
use crate::shapes::shape;
use crate::tokens::{reserved, tokens};
use es5_parser::read_script;
use es5_tree::{EsStop, es_depth};
use opal_base::Pos;
use std::alloc::{AllocError, Global};
use std::io::{self, Write};

const MOST_BYTES: usize = 4_000_000;

const DIRECTIVE: &[u8] = b"'use strict';";

fn main(rt: HostRuntime) -> io::Result<()> {
    let alloc = rt.alloc();
    let input = io::read_to_string(alloc, rt.stdin())?;
    let mut out = rt.stdout();
    for row in input.as_str().split("\n") {
        let (word, text) = match row.split_once(" ") {
            Some((word, text)) => (word, text),
            None => (row, ""),
        };
        if !word.is_empty() {
            let line = answer(alloc, word, text)?;
            out.write_all(line.as_bytes())?;
            out.write_all(b"\n")?;
        }
    }
    Ok(())
}

fn answer(alloc: Global, word: &str, text: &str) -> Result<String, AllocError> {
    match word {
        "tokens" => tokens(alloc, &unescaped(alloc, text)?),
        "reserved" => reserved(alloc, &unescaped(alloc, text)?),
        "script" => shown(alloc, behind_directive(alloc, text)?, false),
        "places" => shown(alloc, behind_directive(alloc, text)?, true),
        "file" => shown(alloc, unescaped(alloc, text)?, false),
        "deep" => depth(alloc, nested(alloc, text)?),
        _ => String::from_str(alloc, "no such word"),
    }
}

fn behind_directive(alloc: Global, text: &str) -> Result<Vec<u8>, AllocError> {
    let mut bytes = Vec::new(alloc);
    bytes.extend_from_slice(DIRECTIVE)?;
    let behind = unescaped(alloc, text)?;
    bytes.extend_from_slice(&behind)?;
    Ok(bytes)
}

/// The shape of the script that bytes spell.
fn shown(alloc: Global, bytes: Vec<u8>, columns: bool) -> Result<String, AllocError> {
    if MOST_BYTES < bytes.len() {
        return String::from_str(alloc, "too long");
    }
    match read_script(alloc, &bytes) {
        Ok(script) => shape(alloc, &script, columns),
        Err(EsStop::NotScript { pos }) => place(alloc, pos),
        Err(EsStop::NoMemory) => Err(AllocError),
    }
}

/// The depth of the script that bytes spell.
fn depth(alloc: Global, bytes: Vec<u8>) -> Result<String, AllocError> {
    if MOST_BYTES < bytes.len() {
        return String::from_str(alloc, "too long");
    }
    match read_script(alloc, &bytes) {
        Ok(script) => {
            let depth = es_depth(&script);
            format!(in alloc; "{depth}")
        }
        Err(EsStop::NotScript { pos }) => place(alloc, pos),
        Err(EsStop::NoMemory) => Err(AllocError),
    }
}

fn place(alloc: Global, pos: Pos) -> Result<String, AllocError> {
    let (line, col) = (pos.line, pos.col);
    format!(in alloc; "{line}:{col}")
}

/// A part of a row.
fn part(row: &str, at: usize) -> &str {
    match row.split("#").nth(at) {
        Some(part) => part,
        None => "",
    }
}

/// The directive, a beginning, an opening so often, a middle, a closing as often, and an end.
fn nested(alloc: Global, row: &str) -> Result<Vec<u8>, AllocError> {
    let times = part(row, 0).parse::<u32>().unwrap_or(0);
    let mut bytes = Vec::new(alloc);
    bytes.extend_from_slice(DIRECTIVE)?;
    bytes.extend_from_slice(part(row, 1).as_bytes())?;
    for _turn in 0..times {
        bytes.extend_from_slice(part(row, 2).as_bytes())?;
    }
    bytes.extend_from_slice(part(row, 3).as_bytes())?;
    for _turn in 0..times {
        bytes.extend_from_slice(part(row, 4).as_bytes())?;
    }
    bytes.extend_from_slice(part(row, 5).as_bytes())?;
    Ok(bytes)
}
