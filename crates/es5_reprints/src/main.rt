//! Shows how scripts are read and printed. Standard input holds scripts, with a line `----` between
//! each two, each without the directive, which is put before it; standard output takes for each of
//! them, in the same order, its text as it is printed, without the directive, or
//! `LINE:COLUMN not a script` where it is none, lines from 1 behind the directive and columns from
//! 1; and a line `----` behind each. What was printed is read and printed once more: where that
//! doesn't give the same text, a line `not the same again` follows. At the end the same is done with
//! made-up scripts: standard output takes the text of each that isn't the same again, and a line with
//! their numbers.
#![tactic(auto)]

mod again;
mod generate;

use crate::again::shown_again;
use es5_parser::read_script;
use es5_printer::{PrintStop, print};
use es5_tree::EsStop;
use opal_base::{Bytes, Pos};
use std::alloc::{AllocError, Global};
use std::io::{self, Write};

/// What stands between two scripts.
const BETWEEN: &str = "\n----\n";

const DIRECTIVE: &[u8] = b"\"use strict\";\n";

/// The longest script, in bytes.
const MOST_BYTES: usize = 1_048_576;

/// What a text comes to.
#[derive(Drop)]
enum Answer {
    Printed(Bytes),
    NotScript(Pos),
}

fn main(rt: HostRuntime) -> io::Result<()> {
    let alloc = rt.alloc();
    let input = io::read_to_string(alloc, rt.stdin())?;
    let mut out = rt.stdout();
    for row in input.as_str().split(BETWEEN) {
        let text = shown(alloc, row.as_bytes())?;
        out.write_all(text.as_slice())?;
        out.write_all(b"----\n")?;
    }
    let text = shown_again(alloc)?;
    out.write_all(text.as_slice())?;
    Ok(())
}

// What is shown of a script.
fn shown(alloc: Global, row: &[u8]) -> Result<Bytes, AllocError> {
    let mut bytes = Bytes::new(alloc);
    put(&mut bytes, DIRECTIVE)?;
    put(&mut bytes, row)?;
    match reprint(alloc, bytes.as_slice())? {
        Answer::Printed(text) => printed(alloc, text.as_slice()),
        Answer::NotScript(pos) => refused(alloc, pos),
    }
}

// The text without its directive, and whether it is printed again as it is.
fn printed(alloc: Global, text: &[u8]) -> Result<Bytes, AllocError> {
    let mut out = Bytes::new(alloc);
    put(&mut out, text.strip_prefix(DIRECTIVE).unwrap_or(text))?;
    match reprint(alloc, text)? {
        Answer::Printed(again) if again.as_slice() == text => {}
        _ => put(&mut out, b"not the same again\n")?,
    }
    Ok(out)
}

fn refused(alloc: Global, pos: Pos) -> Result<Bytes, AllocError> {
    let line = pos.line;
    let column = pos.col as u64 + 1;
    let text = format!(in alloc; "{line}:{column} not a script\n")?;
    let mut out = Bytes::new(alloc);
    put(&mut out, text.as_bytes())?;
    Ok(out)
}

fn put(bytes: &mut Bytes, more: &[u8]) -> Result<(), AllocError> {
    match bytes.extend(more) {
        Ok(()) => Ok(()),
        Err(_) => Err(AllocError),
    }
}

// A script as it is printed, or where it is none.
fn reprint(alloc: Global, bytes: &[u8]) -> Result<Answer, AllocError> {
    if bytes.len() > MOST_BYTES {
        return Ok(Answer::NotScript(Pos { line: 0, col: 0 }));
    }
    match read_script(alloc, bytes) {
        Ok(script) => match print(alloc, &script) {
            Ok(printed) => Ok(Answer::Printed(printed.bytes)),
            Err(PrintStop::NoMemory | PrintStop::TooLong) => Err(AllocError),
        },
        Err(EsStop::NotScript { pos }) => Ok(Answer::NotScript(pos)),
        Err(EsStop::NoMemory) => Err(AllocError),
    }
}
