//! What is told of a block: how its script comes out, and what is wrong.

use crate::block::Block;
use crate::put;
use crate::run::{Budget, CELLS, Outcome, Stop, run};
use crate::trace::trace;
use opal_base::Bytes;
use std::alloc::{AllocError, Global};
use std::fmt;

/// The slices in which each script is run besides.
const SLICES: [u64; 2] = [7, 1];

/// What is wrong with the runs of a script.
#[derive(Clone, Copy)]
enum Fault {
    DiffersInSlices(u64),
    NotSteps { told: u64, begun: u64 },
    NotCells { told: u32, fewest: u32 },
    EndsAnew,
}

impl fmt::Display for Fault {
    fn fmt<W: fmt::Write>(&self, f: &mut fmt::Formatter<W>) -> fmt::Result {
        match self {
            Fault::DiffersInSlices(slice) => write!(f, "differs in slices of {slice}"),
            Fault::NotSteps { told, begun } => write!(f, "not {told} steps: {begun}"),
            Fault::NotCells { told, fewest } => write!(f, "not {told} cells: {fewest}"),
            Fault::EndsAnew => write!(f, "ends anew"),
        }
    }
}

/// The lines that are told of a block.
pub fn report(alloc: Global, block: &Block) -> Result<Bytes, AllocError> {
    if !block.slices.is_empty() {
        return trace(alloc, block);
    }
    let whole = run(alloc, block, budget_of(block))?;
    let mut out = Bytes::new(alloc);
    put(&mut out, whole.output.as_slice())?;
    put(&mut out, b"\n")?;
    put(&mut out, whole.end.as_slice())?;
    for slice in SLICES {
        let budget = Budget {
            slice,
            ..budget_of(block)
        };
        if !is_same(&run(alloc, block, budget)?, &whole) {
            put_fault(alloc, &mut out, Fault::DiffersInSlices(slice))?;
        }
    }
    put_wrong_steps(alloc, &mut out, block, &whole)?;
    put_wrong_cells(alloc, &mut out, block, &whole)?;
    if !whole.is_kept {
        put_fault(alloc, &mut out, Fault::EndsAnew)?;
    }
    Ok(out)
}

// What bounds the first run of a block.
fn budget_of(block: &Block) -> Budget {
    Budget {
        steps: block.budget,
        cells: CELLS,
        slice: block.budget,
    }
}

fn is_same(first: &Outcome, second: &Outcome) -> bool {
    first.output.as_slice() == second.output.as_slice()
        && first.end.as_slice() == second.end.as_slice()
        && first.steps == second.steps
        && first.is_kept == second.is_kept
}

fn put_fault(alloc: Global, out: &mut Bytes, fault: Fault) -> Result<(), AllocError> {
    let line = format!(in alloc; "{fault}\n")?;
    put(out, line.as_bytes())
}

// Tells where the script doesn't take as many steps as its block tells.
fn put_wrong_steps(
    alloc: Global,
    out: &mut Bytes,
    block: &Block,
    whole: &Outcome,
) -> Result<(), AllocError> {
    let Some(told) = block.steps else {
        return Ok(());
    };
    if takes_steps(alloc, block, whole, told)? {
        return Ok(());
    }
    let begun = whole.steps;
    put_fault(alloc, out, Fault::NotSteps { told, begun })
}

// Whether the script comes out so with as many steps, and is out of steps with one less.
fn takes_steps(
    alloc: Global,
    block: &Block,
    whole: &Outcome,
    steps: u64,
) -> Result<bool, AllocError> {
    let budget = Budget {
        steps,
        ..budget_of(block)
    };
    if whole.stop == Stop::Steps || !is_same(&run(alloc, block, budget)?, whole) {
        return Ok(false);
    }
    if steps == 0 {
        return Ok(true);
    }
    let budget = Budget {
        steps: steps - 1,
        ..budget
    };
    Ok(run(alloc, block, budget)?.stop == Stop::Steps)
}

// Tells where the script doesn't make as many cells as its block tells.
fn put_wrong_cells(
    alloc: Global,
    out: &mut Bytes,
    block: &Block,
    whole: &Outcome,
) -> Result<(), AllocError> {
    let Some(told) = block.cells else {
        return Ok(());
    };
    if makes_cells(alloc, block, whole, told)? {
        return Ok(());
    }
    let fewest = fewest_cells(alloc, block, whole)?;
    put_fault(alloc, out, Fault::NotCells { told, fewest })
}

// Whether the script comes out so with as many cells, and has too few with one less.
fn makes_cells(
    alloc: Global,
    block: &Block,
    whole: &Outcome,
    cells: u32,
) -> Result<bool, AllocError> {
    let budget = Budget {
        cells,
        ..budget_of(block)
    };
    if whole.stop == Stop::Cells || !is_same(&run(alloc, block, budget)?, whole) {
        return Ok(false);
    }
    if cells == 0 {
        return Ok(true);
    }
    let budget = Budget {
        cells: cells - 1,
        ..budget
    };
    Ok(run(alloc, block, budget)?.stop == Stop::Cells)
}

// The fewest cells with which the script comes out so.
fn fewest_cells(alloc: Global, block: &Block, whole: &Outcome) -> Result<u32, AllocError> {
    for cells in 0..CELLS {
        let budget = Budget {
            cells,
            ..budget_of(block)
        };
        if is_same(&run(alloc, block, budget)?, whole) {
            return Ok(cells);
        }
    }
    Ok(CELLS)
}
