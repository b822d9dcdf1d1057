//! Runs scripts on the machine. Standard input holds scripts, with a line `----` between each two, each
//! without the directive, which is put before it. First lines of a block may tell of its runs:
//!
//! - `// input TEXT`: what `$host.line` reads, with `\n` for a line feed;
//! - `// budget N`: the most steps, 1,000,000 where it isn't told;
//! - `// steps N`, `// cells N`, `// steps N cells N`: how many steps the script takes, and how many
//!   cells it makes;
//! - `// slices N..`: a run in slices of so many steps each, and then only that, with room for as many cells
//!   as are told; `// sink BYTES`, `// sink BYTES CALL`: its sink takes so many bytes at once, and its call of
//!   this number from 0 fails.
//!
//! The script begins behind these lines. Standard output takes for each block, in the same order, what
//! the script writes, a line feed, a line that tells its end, and a line `----`. The place of an end
//! has its line from 1 behind the directive, and its column from 1.
//!
//! Each script is also run in slices of 7 steps and of 1 step, and again behind its end; where steps
//! or cells are told, with just as many and with one less. What is wrong has a line behind that of the
//! end: `differs in slices of N`, `not N steps: N`, `not N cells: N`, `ends anew`. Of slices that are told
//! each has a line with what the sink has taken by then, in brackets, and the end of the slice; a last line
//! tells the steps that were begun.
#![tactic(auto)]

mod block;
mod report;
mod run;
mod trace;

use crate::block::Block;
use crate::report::report;
use opal_base::Bytes;
use std::alloc::AllocError;
use std::io::{self, Write};

/// What stands between two blocks.
const BETWEEN: &str = "\n----\n";

fn main(rt: HostRuntime) -> io::Result<()> {
    let alloc = rt.alloc();
    let input = io::read_to_string(alloc, rt.stdin())?;
    let mut out = rt.stdout();
    for text in input.as_str().split(BETWEEN) {
        let block = Block::read(alloc, text)?;
        let lines = report(alloc, &block)?;
        out.write_all(lines.as_slice())?;
        out.write_all(b"----\n")?;
    }
    Ok(())
}

/// Puts bytes at the end.
fn put(bytes: &mut Bytes, more: &[u8]) -> Result<(), AllocError> {
    match bytes.extend(more) {
        Ok(()) => Ok(()),
        Err(_) => Err(AllocError),
    }
}
