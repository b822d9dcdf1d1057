//! A run of a script, and how it comes out.

use crate::block::{BYTES_AT_ONCE, Block};
use crate::put;
use es5_host::OutKind;
use es5_machine::{Machine, RunEnd};
use es5_parser::read_script;
use es5_tree::{EsStop, Script};
use opal_base::{Bytes, MemSink, Pos, Units, units_to_utf8};
use std::alloc::{AllocError, Global};

/// The longest script, in bytes.
const MOST_BYTES: usize = 1_048_576;

/// The most cells of a run.
pub const CELLS: u32 = 10_000;

/// What bounds a run.
#[derive(Clone, Copy)]
pub struct Budget {
    /// The most steps.
    pub steps: u64,
    /// The most cells.
    pub cells: u32,
    /// How many steps a call of the machine may take.
    pub slice: u64,
}

/// How a run comes out.
#[derive(Drop)]
pub struct Outcome {
    /// What the script wrote.
    pub output: Bytes,
    /// The line that tells the end.
    pub end: Bytes,
    /// What bound the run.
    pub stop: Stop,
    /// The steps that were begun.
    pub steps: u64,
    /// Whether the machine, run again behind its end, did nothing and answered it again.
    pub is_kept: bool,
}

/// What a run stops at.
#[derive(Clone, Copy, PartialEq, Eq)]
pub enum Stop {
    /// An end of the script, or want of memory.
    End,
    /// The most steps.
    Steps,
    /// The most cells.
    Cells,
}

/// The script of a block.
pub fn script_of(alloc: Global, block: &Block) -> Result<Script, EsStop> {
    let bytes = block.script.as_slice();
    if bytes.len() > MOST_BYTES {
        return Err(EsStop::NotScript {
            pos: Pos { line: 0, col: 0 },
        });
    }
    read_script(alloc, bytes)
}

/// The run of a block's script, or `AllocError`.
pub fn run(alloc: Global, block: &Block, budget: Budget) -> Result<Outcome, AllocError> {
    match script_of(alloc, block) {
        Ok(script) => run_script(alloc, script, &block.input, budget),
        Err(EsStop::NotScript { pos }) => no_script(alloc, pos),
        Err(EsStop::NoMemory) => Err(AllocError),
    }
}

fn no_script(alloc: Global, pos: Pos) -> Result<Outcome, AllocError> {
    Ok(Outcome {
        output: Bytes::new(alloc),
        end: line_with_place(alloc, "not a script", pos)?,
        stop: Stop::End,
        steps: 0,
        is_kept: true,
    })
}

fn run_script(
    alloc: Global,
    script: Script,
    input: &Units,
    budget: Budget,
) -> Result<Outcome, AllocError> {
    let Ok(input) = input.try_clone() else {
        return Err(AllocError);
    };
    let Ok(mut machine) = Machine::start(alloc, script, input, budget.cells) else {
        return Err(AllocError);
    };
    let mut sink = MemSink::new(alloc, BYTES_AT_ONCE, Vec::new(alloc));
    let answer = run_in_slices(&mut machine, budget, &mut sink);
    let stop = stop_of(&answer);
    let end = line_of(alloc, &answer)?;
    let steps = machine.steps_begun();
    let mut output = Bytes::new(alloc);
    put(&mut output, sink.taken())?;
    let mut is_kept = true;
    if stop != Stop::Steps {
        let again = machine.run(budget.slice.min(u64::MAX - steps), &mut sink);
        is_kept = line_of(alloc, &again)?.as_slice() == end.as_slice()
            && sink.taken() == output.as_slice()
            && machine.steps_begun() == steps;
    }
    Ok(Outcome {
        output,
        end,
        stop,
        steps,
        is_kept,
    })
}

// Runs a machine until it ends or has begun all the steps.
fn run_in_slices(machine: &mut Machine, budget: Budget, sink: &mut MemSink) -> RunEnd {
    for _ in 0..budget.steps {
        let left = budget.steps.saturating_sub(machine.steps_begun());
        match machine.run(budget.slice.min(left), sink) {
            RunEnd::OutOfSteps if left > budget.slice => {}
            end => return end,
        }
    }
    let begun = machine.steps_begun();
    machine.run(budget.steps.saturating_sub(begun), sink)
}

fn stop_of(end: &RunEnd) -> Stop {
    match end {
        RunEnd::OutOfSteps => Stop::Steps,
        RunEnd::CellsFull => Stop::Cells,
        _ => Stop::End,
    }
}

/// The line that tells an end.
pub fn line_of(alloc: Global, end: &RunEnd) -> Result<Bytes, AllocError> {
    let words: &[u8] = match end {
        RunEnd::Uncaught { name, message } => return uncaught_line(alloc, name, message),
        RunEnd::Outside { kind, pos } => return line_with_place(alloc, outside(*kind), *pos),
        RunEnd::Finished => b"finished\n",
        RunEnd::OutOfSteps => b"out of steps\n",
        RunEnd::CellsFull => b"cells full\n",
        RunEnd::WriteFault => b"write fault\n",
        RunEnd::NoMemory => b"no memory\n",
    };
    let mut line = Bytes::new(alloc);
    put(&mut line, words)?;
    Ok(line)
}

fn outside(kind: OutKind) -> &'static str {
    match kind {
        OutKind::Number => "outside Number",
        OutKind::Division => "outside Division",
        OutKind::Conversion => "outside Conversion",
        OutKind::Host => "outside Host",
    }
}

fn uncaught_line(alloc: Global, name: &Units, message: &Units) -> Result<Bytes, AllocError> {
    let mut line = Bytes::new(alloc);
    put(&mut line, b"uncaught ")?;
    put_text(alloc, &mut line, name)?;
    put(&mut line, b": ")?;
    put_text(alloc, &mut line, message)?;
    put(&mut line, b"\n")?;
    Ok(line)
}

fn put_text(alloc: Global, line: &mut Bytes, text: &Units) -> Result<(), AllocError> {
    match units_to_utf8(alloc, text) {
        Ok(bytes) => put(line, bytes.as_slice()),
        Err(_) => Err(AllocError),
    }
}

/// Words with a place, the line from 1 behind the directive and the column from 1.
pub fn line_with_place(alloc: Global, words: &str, pos: Pos) -> Result<Bytes, AllocError> {
    let line = pos.line;
    let column = pos.col as u64 + 1;
    let text = format!(in alloc; "{words} at {line}:{column}\n")?;
    let mut bytes = Bytes::new(alloc);
    put(&mut bytes, text.as_bytes())?;
    Ok(bytes)
}
