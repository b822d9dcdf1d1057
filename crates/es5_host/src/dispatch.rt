//! Calls of the intrinsic functions.

ghost use Rattle.std.specs.Prelude.{◌≡◌, ◌≤◌, All, length};
ghost use Rattle.es5_tree.specs.Intrinsics.Rows.{row};
ghost use Rattle.es5_tree.specs.Intrinsics.Valid.{Names, Valid};
ghost use Rattle.es5_objects.specs.Values.{value_of};
ghost use Rattle.es5_host.specs.Answers.{Answered, Caused, NamesInAnswer, ReadBy, TookBy};
ghost use Rattle.es5_host.specs.Values.{fn_of};

use crate::answer::{HostAnswer, HostFn};
use crate::array::{is_array, keys, push, slice};
use crate::function::{apply, call};
use crate::host::{line, write};
use crate::lines::Lines;
use crate::object::{create, get_prototype_of, has_own_property, set_prototype_of};
use crate::text::{char_code_at, from_char_code, index_of, substring};
use crate::values::EsValues;
use es5_objects::{EsValue, ObjHeap};
use opal_base::Sink;
use std::alloc::Global;

// The answer of each function.
fn answer<S: Sink>(
    alloc: Global,
    heap: &mut ObjHeap,
    which: HostFn,
    this: &EsValue,
    args: &EsValues,
    input: &mut Lines,
    sink: &mut S,
) -> HostAnswer
    requires this { Names (length heap.old.cells) (value_of this.now) }
    requires args { All (Names (length heap.old.cells)) args.now }
    requires valid { Valid heap.old.cells }
    ensures answer { Answered (row (fn_of which) heap.old.cells input.old (value_of this.now) args.now) result heap.old heap.new }
    ensures valid { Valid heap.new.cells }
    ensures read { ReadBy (fn_of which) (row (fn_of which) heap.old.cells input.old (value_of this.now) args.now) result input.old input.new }
    ensures took { TookBy (fn_of which) (row (fn_of which) heap.old.cells input.old (value_of this.now) args.now) result (S.told sink.old) (S.told sink.new) }
    ensures later { S.faults sink.old ≤ S.faults sink.new }
    ensures cause { Caused result (S.faults sink.old) (S.faults sink.new) }
{
    match which {
        HostFn::Create => create(alloc, heap, args),
        HostFn::GetPrototypeOf => get_prototype_of(alloc, heap, args),
        HostFn::SetPrototypeOf => set_prototype_of(alloc, heap, args),
        HostFn::Keys => keys(alloc, heap, args),
        HostFn::HasOwnProperty => has_own_property(heap, this, args),
        HostFn::Call => call(alloc, heap, this, args),
        HostFn::Apply => apply(alloc, heap, this, args),
        HostFn::IsArray => is_array(heap, args),
        HostFn::Push => push(alloc, heap, this, args),
        HostFn::Slice => slice(alloc, heap, this, args),
        HostFn::CharCodeAt => char_code_at(this, args),
        HostFn::Substring => substring(alloc, this, args),
        HostFn::IndexOf => index_of(this, args),
        HostFn::FromCharCode => from_char_code(alloc, args),
        HostFn::Write => write(alloc, args, sink),
        HostFn::Line => line(alloc, input, args),
    }
}

/// Calls an intrinsic function with a `this` and arguments. After `Throw`, `Invoke`, `Outside`,
/// `CellsFull` and `WriteFault` the heap and the lines are as before. After `WriteFault` and
/// `NoMemory` the sink took a front of what is written.
pub fn host_call<S: Sink>(
    alloc: Global,
    heap: &mut ObjHeap,
    which: HostFn,
    this: &EsValue,
    args: &EsValues,
    input: &mut Lines,
    sink: &mut S,
) -> HostAnswer
    requires this { Names (length heap.old.cells) (value_of this.now) }
    requires args { All (Names (length heap.old.cells)) args.now }
    requires valid { Valid heap.old.cells }
    ensures answer { Answered (row (fn_of which) heap.old.cells input.old (value_of this.now) args.now) result heap.old heap.new }
    ensures valid { Valid heap.new.cells }
    ensures read { ReadBy (fn_of which) (row (fn_of which) heap.old.cells input.old (value_of this.now) args.now) result input.old input.new }
    ensures took { TookBy (fn_of which) (row (fn_of which) heap.old.cells input.old (value_of this.now) args.now) result (S.told sink.old) (S.told sink.new) }
    ensures later { S.faults sink.old ≤ S.faults sink.new }
    ensures cause { Caused result (S.faults sink.old) (S.faults sink.new) }
    ensures named { NamesInAnswer (length heap.new.cells) result }
{
    answer(alloc, heap, which, this, args, input, sink)
}
