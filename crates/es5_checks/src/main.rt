//! Shows of trees of scripts, also of such that no text spells, what is known of them before they run.
//! Standard input holds a row a line, a word and a statement, and standard output takes its answer:
//!
//! - `spelled STATEMENT`: whether the script of this statement is spellable;
//! - `table STATEMENT`: the variables of that script and the nodes of its table, each behind its form;
//! - `numbers STATEMENT`: what stands at each number of that table, and at the one behind the last.
//!
//! A tree is written with its form before its parts, each part behind a space, in the order of the
//! fields of `es5_tree`; a list in `(` and `)`, `-` for a part that isn't there, `''` for an empty name
//! or text, and two numbers for a place. Lines that begin with `#` and empty ones are taken again as
//! they are.
#![tactic(auto)]

mod numbers;
mod reader;
mod shown;

use crate::numbers::put_numbers;
use crate::reader::Reader;
use crate::shown::put_script;
use es5_code::{NodeTable, number};
use es5_spelling::is_spellable;
use es5_tree::Script;
use opal_base::Bytes;
use std::alloc::{AllocError, Global};
use std::io::{self, Write};

fn main(rt: HostRuntime) -> io::Result<()> {
    let alloc = rt.alloc();
    let input = io::read_to_string(alloc, rt.stdin())?;
    let mut out = rt.stdout();
    for line in input.as_str().split_terminator('\n') {
        let text = answer(alloc, line)?;
        out.write_all(text.as_slice())?;
        out.write_all(b"\n")?;
    }
    Ok(())
}

// What is shown of a line.
fn answer(alloc: Global, line: &str) -> Result<Bytes, AllocError> {
    let mut out = Bytes::new(alloc);
    if line.is_empty() || line.starts_with("#") {
        put(&mut out, line)?;
        return Ok(out);
    }
    let (row, tree) = line.split_once(' ').unwrap_or((line, ""));
    let script = Reader::new(alloc, tree).script()?;
    match row {
        "spelled" => put(&mut out, spelled(&script))?,
        "table" => put_script(alloc, &table_of(alloc, script)?, &mut out)?,
        "numbers" => put_numbers(alloc, &table_of(alloc, script)?, &mut out)?,
        _ => put(&mut out, "no such row")?,
    }
    Ok(out)
}

fn spelled(script: &Script) -> &'static str {
    if is_spellable(script) {
        "spellable"
    } else {
        "not spellable"
    }
}

fn table_of(alloc: Global, script: Script) -> Result<NodeTable, AllocError> {
    match number(alloc, script) {
        Ok(table) => Ok(table),
        Err(_) => Err(AllocError),
    }
}

/// Puts text at the end.
fn put(out: &mut Bytes, text: &str) -> Result<(), AllocError> {
    match out.extend(text.as_bytes()) {
        Ok(()) => Ok(()),
        Err(_) => Err(AllocError),
    }
}
