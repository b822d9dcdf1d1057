//! The arguments objects of calls (ECMA-262 5.1, section 10.6).

ghost use Rattle.std.specs.Prelude.{◌≡◌, ◌<◌, length, pos, IfOk, OnOk};
ghost use Rattle.es5_tree.specs.Values.{Num};
ghost use Rattle.es5_tree.specs.Objects.Cells.{Arguments, put};
ghost use Rattle.es5_tree.specs.Objects.Links.{cell_at};
ghost use Rattle.es5_tree.specs.Objects.Names.{length_name};
ghost use Rattle.es5_tree.specs.Intrinsics.Valid.{Valid};
ghost use Rattle.es5_evaluation.specs.Evaluate.{arguments_object};
ghost use Rattle.es5_objects.specs.Heap.{with_cell};
ghost use Rattle.es5_host.specs.Answers.{with_new};

use crate::arrays::new_filled;
use crate::objects::OBJECT_PROTOTYPE;
use es5_host::EsValues;
use es5_objects::{CellKind, EsValue, ObjHeap};
use es5_tree::{SafeInt, word_units};
use opal_base::NoMemory;
use std::alloc::Global;

// Gives an object its `length`.
fn put_length(alloc: Global, heap: &mut ObjHeap, o: u32, count: u32) -> Result<(), NoMemory>
    requires object { o < length heap.old.cells }
    requires valid { Valid heap.old.cells }
    ensures put { OnOk result (heap.new ≡ with_cell heap.old o (put (cell_at heap.old.cells o) length_name (Num (pos count)))) }
    ensures valid { OnOk result (Valid heap.new.cells) }
{
    let name = word_units(alloc, b"length")?;
    heap.put(o, name, EsValue::Num(SafeInt::from_u32(count)))
}

/// Makes the arguments object of a call, which there is room for.
pub(crate) fn new_arguments(
    alloc: Global,
    heap: &mut ObjHeap,
    args: &EsValues,
) -> Result<u32, NoMemory>
    requires { Valid heap.old.cells }
    ensures number { IfOk result (λ o. o ≡ length heap.old.cells) }
    ensures made { OnOk result (heap.new ≡ with_new heap.old (arguments_object args.now)) }
    ensures valid { OnOk result (Valid heap.new.cells) }
{
    let o = new_filled(alloc, heap, OBJECT_PROTOTYPE, CellKind::Arguments, args)?;
    put_length(alloc, heap, o, args.len() as u32)?;
    Ok(o)
}
