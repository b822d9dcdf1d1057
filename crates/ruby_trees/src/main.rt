//! Shows how Ruby texts are parsed. Standard input holds texts, with a line `----` between each
//! two; standard output takes a line for each of them, in the same order: the tree of the text, or
//! `LINE:COLUMN CONSTRUCT` where it is refused, both counted from 1.
//!
//! A text may begin with a line that isn't a part of it:
//!
//! - `spans`: each node of the tree is followed by `@`, its span, `^` and its mark;
//! - `depth`: the answer is the depth of the tree;
//! - `scopes`: the answer is the refusal of scope, or the scopes, the names that are called and the
//!   tree with its names resolved;
//! - `resolve`: the same, where a form that isn't built yet is refused too.
#![tactic(auto)]

mod line;
mod names;
mod scopes;
mod tree;

ghost use Rattle.std.specs.Prelude.{◌<◌, ◌^◌, length};

use crate::line::Line;
use crate::scopes::{resolved, scoped};
use crate::tree::tree;
use opal_base::{DecodeFault, Pos, Units, decoded_fits, utf8_to_units};
use ruby_lexer::lex;
use ruby_meaning::{Construct, Program, Stop, depth, tokens_placed};
use ruby_parser::parse;
use std::alloc::{AllocError, Global};
use std::io;

/// What stands between two texts.
const BETWEEN: &str = "\n----\n";

/// The longest text, in bytes.
const MOST_BYTES: usize = 1_048_576;

fn main(rt: HostRuntime) -> io::Result<()> {
    let alloc = rt.alloc();
    let input = io::read_to_string(alloc, rt.stdin())?;
    let out = rt.stdout();
    for row in input.as_str().split(BETWEEN) {
        let line = line_of(alloc, row)?;
        println!(out; "{line}")?;
    }
    Ok(())
}

/// What a row asks for.
#[derive(Clone, Copy)]
enum Asked {
    Tree,
    Spans,
    Depth,
    Scopes,
    Resolved,
}

// What a row asks for, and its text.
fn read_row(row: &str) -> (Asked, &str) {
    if let Some(text) = row.strip_prefix("spans\n") {
        return (Asked::Spans, text);
    }
    if let Some(text) = row.strip_prefix("depth\n") {
        return (Asked::Depth, text);
    }
    if let Some(text) = row.strip_prefix("scopes\n") {
        return (Asked::Scopes, text);
    }
    match row.strip_prefix("resolve\n") {
        Some(text) => (Asked::Resolved, text),
        None => (Asked::Tree, row),
    }
}

// The line of a row.
fn line_of(alloc: Global, row: &str) -> Result<String, AllocError> {
    let (asked, text) = read_row(row);
    match told(alloc, asked, text) {
        Ok(line) => Ok(line),
        Err(Stop::Refused { pos, construct }) => refusal(alloc, pos, construct),
        Err(Stop::NoMemory) => Err(AllocError),
    }
}

// What is asked for, or the refusal of the text.
fn told(alloc: Global, asked: Asked, text: &str) -> Result<String, Stop> {
    let program = program(alloc, text.as_bytes())?;
    match asked {
        Asked::Tree => whole(alloc, &program, false),
        Asked::Spans => whole(alloc, &program, true),
        Asked::Depth => levels(alloc, &program),
        Asked::Scopes => scoped(alloc, &program),
        Asked::Resolved => resolved(alloc, program),
    }
}

// The tree, with its spans or without them.
fn whole(alloc: Global, program: &Program, spans: bool) -> Result<String, Stop> {
    let mut line = Line::new(alloc, spans);
    tree(&mut line, &program.body)?;
    Ok(line.into_text())
}

// The depth of the tree.
fn levels(alloc: Global, program: &Program) -> Result<String, Stop> {
    let mut line = Line::new(alloc, false);
    line.number(i64::from(depth(&program.body)))?;
    Ok(line.into_text())
}

fn refusal(alloc: Global, pos: Pos, construct: Construct) -> Result<String, AllocError> {
    let line = pos.line as u64 + 1;
    let column = pos.col as u64 + 1;
    let name = construct.name();
    format!(in alloc; "{line}:{column} {name}")
}

// The program of a text.
fn program(alloc: Global, bytes: &[u8]) -> Result<Program, Stop> {
    if bytes.len() > MOST_BYTES {
        return Err(at_start(Construct::FileTooLong));
    }
    decoded_fits();
    match utf8_to_units(alloc, bytes) {
        Ok(text) => parsed(alloc, &text),
        Err(DecodeFault::BadByte { .. }) => Err(at_start(Construct::BadByte)),
        Err(DecodeFault::NoMemory) => Err(Stop::NoMemory),
    }
}

fn at_start(construct: Construct) -> Stop {
    Stop::Refused {
        pos: Pos { line: 0, col: 0 },
        construct,
    }
}

fn parsed(alloc: Global, text: &Units) -> Result<Program, Stop>
    requires short { length text.now < 2 ^ 31 }
{
    tokens_placed();
    let tokens = lex(alloc, text)?;
    parse(alloc, &tokens)
}
