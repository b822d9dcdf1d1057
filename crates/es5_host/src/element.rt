//! Elements of arrays.

ghost use Rattle.std.specs.Prelude.{◌≡◌, ◌+◌, ◌<◌, ◌^◌, [], ◌∷◌, ◌++◌, length, map, Some, IfOk, OnOk, All};
ghost use Rattle.es5_tree.specs.Objects.Links.{cell_at};
ghost use Rattle.es5_tree.specs.Objects.Cells.{put};
ghost use Rattle.es5_tree.specs.Objects.Names.{decimal};
ghost use Rattle.es5_tree.specs.Values.{Str};
ghost use Rattle.es5_tree.specs.Intrinsics.Rows.{with_element, filled, array_of, Makes};
ghost use Rattle.es5_tree.specs.Intrinsics.Valid.{NamesIf, Valid};
ghost use Rattle.es5_objects.specs.Heap.{with_cell};
ghost use Rattle.es5_objects.specs.Values.{value_of, value_if};
ghost use Rattle.es5_host.specs.Answers.{Answered};

use crate::answer::HostAnswer;
use es5_objects::{CellKind, EsText, EsValue, ObjHeap, decimal};
use opal_base::{Names, NoMemory, Units};
use std::alloc::Global;

/// The number of `Array.prototype`.
pub const ARRAY_PROTOTYPE: u32 = 2;

/// Puts a value at an index of an object.
pub fn put_at(
    alloc: Global,
    heap: &mut ObjHeap,
    o: u32,
    i: u32,
    value: &EsValue,
) -> Result<(), NoMemory>
    requires object { o < length heap.old.cells }
    requires value { NamesIf (length heap.old.cells) (Some (value_of value.now)) }
    requires valid { Valid heap.old.cells }
    ensures put { OnOk result (heap.new ≡ with_cell heap.old o (put (cell_at heap.old.cells o) (decimal i) (value_of value.now))) }
    ensures valid { Valid heap.new.cells }
    ensures count { length heap.new.cells ≡ length heap.old.cells }
{
    let name = decimal(alloc, i)?;
    heap.put(o, name, value.share()?)
}

// Puts an element at an index of an object, where there is one.
fn put_element(
    alloc: Global,
    heap: &mut ObjHeap,
    o: u32,
    i: u32,
    item: &Option<EsValue>,
) -> Result<(), NoMemory>
    requires object { o < length heap.old.cells }
    requires item { NamesIf (length heap.old.cells) (value_if item.now) }
    requires valid { Valid heap.old.cells }
    ensures put { OnOk result (heap.new ≡ with_cell heap.old o (with_element (cell_at heap.old.cells o) i (value_if item.now))) }
    ensures valid { Valid heap.new.cells }
    ensures count { length heap.new.cells ≡ length heap.old.cells }
{
    match item {
        Some(value) => put_at(alloc, heap, o, i, value),
        None => Ok(()),
    }
}

/// Puts elements into an object, from the index 0 on.
pub fn fill(
    alloc: Global,
    heap: &mut ObjHeap,
    o: u32,
    items: &[Option<EsValue>],
) -> Result<(), NoMemory>
    requires object { o < length heap.old.cells }
    requires few { length items.now < 2 ^ 32 }
    requires items { All (λ item. NamesIf (length heap.old.cells) (value_if item)) items.now }
    requires valid { Valid heap.old.cells }
    ensures filled { OnOk result (heap.new ≡ with_cell heap.old o (filled (cell_at heap.old.cells o) 0 (map value_if items.now))) }
    ensures valid { Valid heap.new.cells }
    ensures count { length heap.new.cells ≡ length heap.old.cells }
{
    for i in 0..items.len() {
        put_element(alloc, heap, o, i as u32, &items[i])?;
    }
    Ok(())
}

/// Makes a new array of these elements, some of which may be left out.
pub fn make_array(alloc: Global, heap: &mut ObjHeap, items: &[Option<EsValue>]) -> HostAnswer
    requires few { length items.now < 2 ^ 32 }
    requires items { All (λ item. NamesIf (length heap.old.cells) (value_if item)) items.now }
    requires valid { Valid heap.old.cells }
    ensures answer { Answered (Makes (array_of (map value_if items.now))) result heap.old heap.new }
    ensures valid { Valid heap.new.cells }
{
    match heap.create_as(Some(ARRAY_PROTOTYPE), CellKind::Array) {
        Err(_) => HostAnswer::CellsFull,
        Ok(o) => match fill(alloc, heap, o, items) {
            Ok(()) => HostAnswer::Value(EsValue::Obj(o)),
            Err(_) => HostAnswer::NoMemory,
        },
    }
}

// Puts a text at the end, as an element.
fn push_name(alloc: Global, items: &mut Vec<Option<EsValue>>, name: &Units) -> Result<(), NoMemory>
    ensures { OnOk result (map value_if items.new.items ≡ map value_if items.old.items ++ Some (Str name.now) ∷ []) }
{
    let text = EsText::new(alloc, name.try_clone()?)?;
    match items.push(Some(EsValue::Str(text))) {
        Ok(()) => Ok(()),
        Err(_) => Err(NoMemory),
    }
}

/// The names as elements.
pub fn name_elements(alloc: Global, names: &Names) -> Result<Vec<Option<EsValue>>, NoMemory>
    ensures { IfOk result (λ items. map value_if items.items ≡ map (λ name. Some (Str name)) names.now) }
{
    let mut items = Vec::new(alloc);
    for i in 0..names.len() {
        push_name(alloc, &mut items, names.at(i))?;
    }
    Ok(items)
}
