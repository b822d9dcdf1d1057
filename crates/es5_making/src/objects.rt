//! New objects.

ghost use Rattle.std.specs.Prelude.{◌≡◌, ◌<◌, length, IfOk, OnOk, Some};
ghost use Rattle.es5_tree.specs.Objects.Cells.{new_cell};
ghost use Rattle.es5_tree.specs.Intrinsics.Valid.{Valid};
ghost use Rattle.es5_objects.specs.Values.{kind_of};
ghost use Rattle.es5_host.specs.Answers.{with_new};

use es5_objects::{CellKind, ObjHeap};
use opal_base::NoMemory;

/// The number of `Object.prototype`.
pub(crate) const OBJECT_PROTOTYPE: u32 = 0;

/// The number of `Function.prototype`.
pub(crate) const FUNCTION_PROTOTYPE: u32 = 1;

/// The number of `Array.prototype`.
pub(crate) const ARRAY_PROTOTYPE: u32 = 2;

/// 2^32-1, the greatest number of elements, and the greatest number that an object holds of a code or
/// of a record.
pub(crate) const GREATEST: usize = 4_294_967_295;

/// Makes an object without properties, which there is room for; its link is an intrinsic object.
pub(crate) fn new_object(heap: &mut ObjHeap, link: u32, kind: CellKind) -> Result<u32, NoMemory>
    requires valid { Valid heap.old.cells }
    requires link { link < 29 }
    ensures number { IfOk result (λ o. o ≡ length heap.old.cells) }
    ensures made { OnOk result (heap.new ≡ with_new heap.old (new_cell (kind_of kind) (Some link))) }
    ensures valid { OnOk result (Valid heap.new.cells) }
{
    match heap.create_as(Some(link), kind) {
        Ok(o) => Ok(o),
        Err(_) => Err(NoMemory),
    }
}
