//! The run of a script in the slices that its block tells.

use crate::block::Block;
use crate::put;
use crate::run::{CELLS, line_of, line_with_place, script_of};
use es5_machine::Machine;
use es5_tree::{EsStop, Script};
use opal_base::{Bytes, MemSink};
use std::alloc::{AllocError, Global};

/// Lines that tell of a block's slices: what the sink has taken behind each, with its end, and at last the
/// steps that were begun.
pub fn trace(alloc: Global, block: &Block) -> Result<Bytes, AllocError> {
    match script_of(alloc, block) {
        Ok(script) => trace_script(alloc, script, block),
        Err(EsStop::NotScript { pos }) => line_with_place(alloc, "not a script", pos),
        Err(EsStop::NoMemory) => Err(AllocError),
    }
}

fn trace_script(alloc: Global, script: Script, block: &Block) -> Result<Bytes, AllocError> {
    let Ok(input) = block.input.try_clone() else {
        return Err(AllocError);
    };
    let cells = block.cells.unwrap_or(CELLS);
    let Ok(mut machine) = Machine::start(alloc, script, input, cells) else {
        return Err(AllocError);
    };
    trace_machine(alloc, &mut machine, block)
}

fn trace_machine(alloc: Global, machine: &mut Machine, block: &Block) -> Result<Bytes, AllocError> {
    let mut out = Bytes::new(alloc);
    let mut sink = sink_of(alloc, block)?;
    for steps in &block.slices {
        put_slice(alloc, &mut out, machine, *steps, &mut sink)?;
    }
    let steps = machine.steps_begun();
    let line = format!(in alloc; "{steps} steps\n")?;
    put(&mut out, line.as_bytes())?;
    Ok(out)
}

fn sink_of(alloc: Global, block: &Block) -> Result<MemSink, AllocError> {
    let mut failing = Vec::new(alloc);
    if let Some(call) = block.failing {
        if failing.push(call).is_err() {
            return Err(AllocError);
        }
    }
    Ok(MemSink::new(alloc, block.bytes_at_once.max(1), failing))
}

// Takes a slice of at most so many steps, and tells of it.
fn put_slice(
    alloc: Global,
    out: &mut Bytes,
    machine: &mut Machine,
    steps: u64,
    sink: &mut MemSink,
) -> Result<(), AllocError> {
    let begun = machine.steps_begun();
    let end = machine.run(steps.min(u64::MAX - begun), sink);
    put(out, b"[")?;
    put(out, sink.taken())?;
    put(out, b"] ")?;
    put(out, line_of(alloc, &end)?.as_slice())
}
