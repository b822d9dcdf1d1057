//! Shows what calls of the intrinsic functions answer. Standard input holds sections with a line
//! `----` between each two. The first line of a section is the number of cells behind the intrinsic
//! objects; each further line is a step, and standard output takes it again with ` = ` and its answer:
//!
//! - `make KIND LINK`: makes an object, array, arguments or function; its number;
//! - `put OBJECT NAME VALUE`: writes a property; of an array only numbers from 0;
//! - `delete OBJECT NAME`: deletes a property of what is no array, and whether it was there;
//! - `get OBJECT NAME`, `own OBJECT NAME`: the value of a property, its own or an inherited one, or its own;
//! - `names OBJECT`: the listed names, each behind a comma; `kind OBJECT`: its kind;
//! - `objects`: how many there are, and how many there is room for;
//! - `call PATH THIS ARGUMENT..`: calls the intrinsic function that stands at a path from a global;
//! - `function NUMBER`, `globals`, `global NAME`: the function of a number; the number of the globals, and
//!   the place, the name and the value of one;
//! - `input TEXT`: what is read by lines, with `\n` for a line feed; `sink BYTES CALL`: a new sink, which
//!   takes so many bytes at once, and whose call of this number fails; `taken`: what it has taken;
//! - `bind NAME VALUE`, `bound`, `place NAME`, `value PLACE`, `set PLACE VALUE`: puts a name with its value
//!   at the end of a list; the number of its names; the place of one; the value at a place; another one.
//!
//! A value is `undefined`, `null`, `true`, `false`, a number, a text in `'`, or an object as `@` and its
//! number. Lines that begin with `#` and empty ones are taken again as they are.
#![tactic(auto)]

ghost use Rattle.std.specs.Prelude.{◌≤◌};

mod looks;
mod scene;
mod shown;
mod steps;
mod words;

use crate::scene::Scene;
use crate::steps::step;
use es5_host::{Bindings, INTRINSICS, Lines, intrinsics, intrinsics_stand};
use es5_objects::ObjHeap;
use opal_base::{Bytes, MemSink, NoMemory, Units};
use std::alloc::{AllocError, Global};
use std::io::{self, Write};

/// The most cells of a section.
const MOST_CELLS: u32 = 1_000;

fn main(rt: HostRuntime) -> io::Result<()> {
    let alloc = rt.alloc();
    let input = io::read_to_string(alloc, rt.stdin())?;
    let mut out = rt.stdout();
    for section in input.as_str().split("----\n") {
        let text = transcript(alloc, section)?;
        out.write_all(text.as_slice())?;
        out.write_all(b"----\n")?;
    }
    Ok(())
}

// What is shown of a section.
fn transcript(alloc: Global, section: &str) -> Result<Bytes, AllocError> {
    let (first, steps) = section.split_once('\n').unwrap_or((section, ""));
    let cells = first.parse::<u32>().unwrap_or(0).min(MOST_CELLS);
    match answers(alloc, cells, steps) {
        Ok(text) => Ok(text),
        Err(NoMemory) => Err(AllocError),
    }
}

// The steps with their answers, in a heap with so many cells behind the intrinsic objects.
fn answers(alloc: Global, cells: u32, steps: &str) -> Result<Bytes, NoMemory>
    requires { cells ≤ MOST_CELLS }
{
    let mut heap = ObjHeap::new(alloc, INTRINSICS + cells)?;
    let globals = intrinsics(alloc, &mut heap)?;
    intrinsics_stand();
    let mut scene = Scene {
        globals,
        list: Bindings::new(alloc),
        lines: Lines::new(Units::new(alloc)),
        sink: MemSink::new(alloc, 16, Vec::new(alloc)),
    };
    let mut out = Bytes::new(alloc);
    for line in steps.split_terminator('\n') {
        out.extend(line.as_bytes())?;
        step(alloc, &mut heap, &mut scene, line, &mut out)?;
        out.extend(b"\n")?;
    }
    Ok(out)
}
