//! Elements of arrays that aren't left out, with their indices.

ghost use Rattle.std.specs.Prelude.{◌≡◌, ◌<◌, ◌+◌, ◌-◌, ◌^◌, ◌&&◌, nat_lt, nat_le, ℕ, [], ◌∷◌, ◌++◌, nat_eq, length, map, false, Some, None, IfOk, OnOk, All};
ghost use Rattle.std.specs.List.{list_any};
ghost use Rattle.es5_tree.specs.Objects.Cells.{rising, new_cell, Array};
ghost use Rattle.es5_tree.specs.Objects.Links.{cell_at, chain, get};
ghost use Rattle.es5_tree.specs.Objects.Names.{decimal, index_end};
ghost use Rattle.es5_tree.specs.Intrinsics.Rows.{elements, Makes, array_of};
ghost use Rattle.es5_tree.specs.Intrinsics.Made.{array_prototype};
ghost use Rattle.es5_tree.specs.Intrinsics.Valid.{Names, Valid};
ghost use Rattle.es5_objects.specs.Along.{indices_along};
ghost use Rattle.es5_objects.specs.Heap.{with_cell};
ghost use Rattle.es5_objects.specs.Values.{value_of};
ghost use Rattle.es5_host.specs.Answers.{Answered};
ghost use Rattle.es5_host.specs.Items.{element, present};
ghost use Rattle.es5_host.specs.Making.{holding};

use crate::answer::HostAnswer;
use crate::element::{ARRAY_PROTOTYPE, put_at};
use es5_objects::{CellKind, EsValue, ObjHeap, decimal};
use opal_base::NoMemory;
use std::alloc::Global;

/// An element with its index.
#[derive(Drop)]
pub struct Element {
    pub index: u32,
    pub value: EsValue,
}

// Whether an index is from one on and before an end.
fn is_within(index: u32, from: u32, end: u32) -> bool
    ensures { result ≡ (nat_le from index && nat_lt index end) }
{
    from <= index && index < end
}

// Puts what stands at an index of an object at the end, where something does; its index is counted from
// another one.
fn push_present(
    alloc: Global,
    heap: &ObjHeap,
    o: u32,
    from: u32,
    i: u32,
    items: &mut Vec<Element>,
) -> Result<(), NoMemory>
    requires object { o < length heap.now.cells }
    requires end { from + i < 2 ^ 32 }
    ensures { OnOk result (map element items.new.items ≡ map element items.old.items ++ present i (get heap.now.cells o (decimal (from + i)) ∷ [])) }
{
    let name = decimal(alloc, from + i)?;
    match heap.get(o, &name) {
        None => Ok(()),
        Some(value) => match items.push(Element {
            index: i,
            value: value.share()?,
        }) {
            Ok(()) => Ok(()),
            Err(_) => Err(NoMemory),
        },
    }
}

// What stands at these indices of an object, its links included, by a look at each of them.
fn present_at_each(
    alloc: Global,
    heap: &ObjHeap,
    o: u32,
    from: u32,
    count: u32,
) -> Result<Vec<Element>, NoMemory>
    requires object { o < length heap.now.cells }
    requires end { from + count < 2 ^ 32 }
    ensures { IfOk result (λ items. map element items.items ≡ present 0 (elements heap.now.cells o from count)) }
{
    let mut items = Vec::new(alloc);
    for i in 0..count {
        push_present(alloc, heap, o, from, i, &mut items)?;
    }
    Ok(items)
}

// What stands at these indices of an object, its links included, by a look at those in this list, which
// has all that are properties.
fn present_at_some(
    alloc: Global,
    heap: &ObjHeap,
    o: u32,
    from: u32,
    count: u32,
    indices: &[u32],
) -> Result<Vec<Element>, NoMemory>
    requires object { o < length heap.now.cells }
    requires end { from + count < 2 ^ 32 }
    requires rising { indices.now ≡ rising (indices_along heap.now.cells (chain heap.now.cells (Some o))) }
    requires others { (i : ℕ) → i < index_end → list_any (nat_eq i) indices.now ≡ false → get heap.now.cells o (decimal i) ≡ None }
    ensures { IfOk result (λ items. map element items.items ≡ present 0 (elements heap.now.cells o from count)) }
{
    let end = from + count;
    let mut at = from;
    let mut items = Vec::new(alloc);
    for index in indices {
        if is_within(*index, at, end) {
            push_present(alloc, heap, o, from, *index - from, &mut items)?;
            at = *index + 1;
        }
    }
    Ok(items)
}

/// What stands at these indices of an object, its links included, with the indices from 0 on. Where
/// there are more indices than properties, it goes along the properties.
pub fn present(
    alloc: Global,
    heap: &ObjHeap,
    o: u32,
    from: u32,
    count: u32,
) -> Result<Vec<Element>, NoMemory>
    requires object { o < length heap.now.cells }
    requires end { from + count < 2 ^ 32 }
    ensures { IfOk result (λ items. map element items.items ≡ present 0 (elements heap.now.cells o from count)) }
{
    if heap.has_more(o, count as usize) {
        return present_at_each(alloc, heap, o, from, count);
    }
    let indices = heap.indices(o)?;
    present_at_some(alloc, heap, o, from, count, &indices)
}

// Puts elements into an object.
fn put_all(alloc: Global, heap: &mut ObjHeap, o: u32, items: &[Element]) -> Result<(), NoMemory>
    requires object { o < length heap.old.cells }
    requires items { All (λ item. Names (length heap.old.cells) (value_of item.value)) items.now }
    requires valid { Valid heap.old.cells }
    ensures put { OnOk result (heap.new ≡ with_cell heap.old o (holding (cell_at heap.old.cells o) (map element items.now))) }
    ensures valid { Valid heap.new.cells }
{
    for i in 0..items.len() {
        let item = &items[i];
        put_at(alloc, heap, o, item.index, &item.value)?;
    }
    Ok(())
}

/// Makes a new array of these elements.
pub fn make_present(alloc: Global, heap: &mut ObjHeap, items: &[Element]) -> HostAnswer
    requires items { All (λ item. Names (length heap.old.cells) (value_of item.value)) items.now }
    requires valid { Valid heap.old.cells }
    ensures answer { Answered (Makes (holding (new_cell Array (Some array_prototype)) (map element items.now))) result heap.old heap.new }
    ensures valid { Valid heap.new.cells }
{
    match heap.create_as(Some(ARRAY_PROTOTYPE), CellKind::Array) {
        Err(_) => HostAnswer::CellsFull,
        Ok(o) => match put_all(alloc, heap, o, items) {
            Ok(()) => HostAnswer::Value(EsValue::Obj(o)),
            Err(_) => HostAnswer::NoMemory,
        },
    }
}
