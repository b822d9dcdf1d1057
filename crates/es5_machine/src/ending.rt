//! How the machine tells the end of a script, and keeps it.

ghost use Rattle.std.specs.Prelude.{◌≡◌, ◌<◌, length, Some, IfOk};
ghost use Rattle.es5_tree.specs.Ends.{text_or};
ghost use Rattle.es5_tree.specs.Objects.Cells.{own};
ghost use Rattle.es5_tree.specs.Objects.Links.{cell_at};
ghost use Rattle.es5_objects.specs.Values.{value_of};
ghost use Rattle.es5_evaluation.specs.Run.{thrown};
ghost use Rattle.es5_machine.specs.Progress.{IsNode, IsTold, end_in, end_of_halt as halt_end};
ghost use Rattle.es5_machine.specs.Run.{IsAgain};

use crate::end::RunEnd;
use es5_execution::Rest;
use es5_objects::{EsValue, ObjHeap};
use es5_pending::{Begins, Completion};
use es5_store::Halt;
use es5_tree::word_units;
use opal_base::{NoMemory, Units};
use std::alloc::Global;

// The text that an object has as its own property of this name, or another one where it has none.
fn own_text(
    alloc: Global,
    heap: &ObjHeap,
    o: u32,
    name: &[u8],
    other: &[u8],
) -> Result<Units, NoMemory>
    requires { o < length heap.now.cells }
    ensures { IfOk result (λ text. text ≡ text_or other.now (own (cell_at heap.now.cells o) name.now)) }
{
    let name = word_units(alloc, name)?;
    match heap.own(o, &name) {
        Some(EsValue::Str(text)) => text.units().try_clone(),
        _ => word_units(alloc, other),
    }
}

// How a throw of an object that nothing caught is told.
fn uncaught_object(alloc: Global, heap: &ObjHeap, o: u32) -> Result<RunEnd, NoMemory>
    requires { o < length heap.now.cells }
    ensures { IfOk result (IsTold (Some (thrown heap.now.cells (value_of (EsValue.Obj o))))) }
{
    let name = own_text(alloc, heap, o, b"name", b"Error")?;
    let message = own_text(alloc, heap, o, b"message", b"")?;
    Ok(RunEnd::Uncaught { name, message })
}

// How a throw that nothing caught is told.
fn uncaught(alloc: Global, heap: &ObjHeap, value: &EsValue) -> Result<RunEnd, NoMemory>
    ensures { IfOk result (IsTold (Some (thrown heap.now.cells (value_of value.now)))) }
{
    match value {
        EsValue::Obj(o) => {
            if *o < heap.len() {
                uncaught_object(alloc, heap, *o)
            } else {
                Err(NoMemory)
            }
        }
        _ => Ok(RunEnd::Uncaught {
            name: word_units(alloc, b"Error")?,
            message: Units::new(alloc),
        }),
    }
}

/// How the end of a script is told, where no node begins any more.
pub fn end_of(alloc: Global, rest: &Rest, heap: &ObjHeap) -> RunEnd
    ensures { IsTold (end_in rest.now heap.now.cells) result }
{
    match rest {
        Rest::Begins(_) => RunEnd::OutOfSteps,
        Rest::Ended(Completion::Throw(value)) => match uncaught(alloc, heap, value) {
            Ok(end) => end,
            Err(_) => RunEnd::NoMemory,
        },
        Rest::Ended(_) => RunEnd::Finished,
        Rest::Left(kind, pos) => RunEnd::Outside {
            kind: *kind,
            pos: *pos,
        },
    }
}

/// How the stop of a run is told.
pub fn end_of_halt(halt: Halt) -> RunEnd
    ensures { result ≡ halt_end halt }
{
    match halt {
        Halt::CellsFull => RunEnd::CellsFull,
        Halt::WriteFault => RunEnd::WriteFault,
        Halt::NoMemory => RunEnd::NoMemory,
    }
}

/// The node that begins next, if one does.
pub fn node_in(rest: &Rest) -> Option<Begins>
    ensures { IsNode rest.now result }
{
    match rest {
        Rest::Begins(begins) => Some(*begins),
        _ => None,
    }
}

/// The same end again, or `NoMemory` where its texts can't be copied.
pub fn again(end: &RunEnd) -> RunEnd
    ensures { IsAgain end.now result }
{
    match end {
        RunEnd::Finished => RunEnd::Finished,
        RunEnd::Uncaught { name, message } => match (name.try_clone(), message.try_clone()) {
            (Ok(name), Ok(message)) => RunEnd::Uncaught { name, message },
            _ => RunEnd::NoMemory,
        },
        RunEnd::Outside { kind, pos } => RunEnd::Outside {
            kind: *kind,
            pos: *pos,
        },
        RunEnd::OutOfSteps => RunEnd::OutOfSteps,
        RunEnd::CellsFull => RunEnd::CellsFull,
        RunEnd::WriteFault => RunEnd::WriteFault,
        RunEnd::NoMemory => RunEnd::NoMemory,
    }
}

/// Keeps an end, and answers it. Where its texts can't be copied, the end is `NoMemory`.
pub fn keep(slot: &mut Option<RunEnd>, end: RunEnd) -> RunEnd
    ensures kept { slot.new ≡ Some result }
    ensures same { IsAgain end result }
{
    let answer = again(&end);
    if let RunEnd::NoMemory = answer {
        *slot = Some(RunEnd::NoMemory);
        return RunEnd::NoMemory;
    }
    *slot = Some(end);
    answer
}
