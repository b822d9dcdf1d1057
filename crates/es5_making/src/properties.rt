//! Objects with properties (ECMA-262 5.1, section 11.1.5).

ghost use Rattle.std.specs.Prelude.{◌≡◌, ◌<◌, All, List, length, OnOk, IfOk, Some};
ghost use Rattle.es5_tree.specs.Objects.Cells.{Object, new_cell, put};
ghost use Rattle.es5_tree.specs.Objects.Links.{cell_at};
ghost use Rattle.es5_tree.specs.Intrinsics.Made.{object_prototype};
ghost use Rattle.es5_tree.specs.Intrinsics.Valid.{Names as NamesBelow, Valid};
ghost use Rattle.es5_evaluation.specs.Task.{Scope};
ghost use Rattle.es5_evaluation.specs.Evaluate.{make_object, with_properties};
ghost use Rattle.es5_objects.specs.Heap.{with_cell};
ghost use Rattle.es5_objects.specs.Values.{value_of};
ghost use Rattle.es5_host.specs.Answers.{with_new};
ghost use Rattle.es5_code.specs.declared.node.Node.{Node};
ghost use Rattle.es5_store.specs.Store.{Sound};
ghost use Rattle.es5_store.specs.Steps.{Quiet};

use crate::arrays::are_named;
use crate::objects::{OBJECT_PROTOTYPE, new_object};
use es5_host::EsValues;
use es5_objects::{CellKind, EsValue, ObjHeap};
use es5_pending::Completion;
use es5_store::{Effect, Halt, Store};
use opal_base::{Names, NoMemory, Units};

// Puts a property of a plain object; the value stays with the caller.
fn put_property(heap: &mut ObjHeap, o: u32, name: &Units, value: &EsValue) -> Result<(), NoMemory>
    requires object { o < length heap.old.cells }
    requires plain { (cell_at heap.old.cells o).kind ≡ Object }
    requires value { NamesBelow (length heap.old.cells) (value_of value.now) }
    requires valid { Valid heap.old.cells }
    ensures put { OnOk result (heap.new ≡ with_cell heap.old o (put (cell_at heap.old.cells o) name.now (value_of value.now))) }
    ensures valid { OnOk result (Valid heap.new.cells) }
    ensures count { length heap.new.cells ≡ length heap.old.cells }
{
    let written = value.share()?;
    heap.put(o, name.try_clone()?, written)
}

// Puts the properties of these names and values, one after the other, as far as there are both.
fn put_all(heap: &mut ObjHeap, o: u32, names: &Names, values: &EsValues) -> Result<(), NoMemory>
    requires object { o < length heap.old.cells }
    requires plain { (cell_at heap.old.cells o).kind ≡ Object }
    requires values { All (NamesBelow (length heap.old.cells)) values.now }
    requires valid { Valid heap.old.cells }
    ensures put { OnOk result (heap.new ≡ with_cell heap.old o (with_properties (cell_at heap.old.cells o) names.now values.now)) }
    ensures valid { OnOk result (Valid heap.new.cells) }
{
    let count = names.len().min(values.len());
    for i in 0..count {
        put_property(heap, o, names.at(i), values.at(i))?;
    }
    Ok(())
}

// Makes a plain object with these properties, which there is room for.
fn new_holder(heap: &mut ObjHeap, names: &Names, values: &EsValues) -> Result<u32, NoMemory>
    requires { Valid heap.old.cells }
    ensures number { IfOk result (λ o. o ≡ length heap.old.cells) }
    ensures made { OnOk result (heap.new ≡ with_new heap.old (with_properties (new_cell Object (Some object_prototype)) names.now values.now)) }
    ensures valid { OnOk result (Valid heap.new.cells) }
{
    if !are_named(heap, values) {
        return Err(NoMemory);
    }
    let o = new_object(heap, OBJECT_PROTOTYPE, CellKind::Object)?;
    put_all(heap, o, names, values)?;
    Ok(o)
}

/// The value of an object expression with these keys and values (11.1.5).
pub fn make_object(store: &mut Store, names: &Names, values: EsValues) -> Result<Effect, Halt>
    requires sound { Sound store.old }
    ensures sound { OnOk result (Sound store.new) }
    ensures limit { store.new.limit ≡ store.old.limit }
    ensures does { (T : List Node) (ρ : Scope) → Quiet result T ρ (make_object names.now values) store.old store.new }
{
    if store.is_full() {
        return Err(Halt::CellsFull);
    }
    match new_holder(&mut store.heap, names, &values) {
        Ok(o) => Ok(Effect::Ended(Completion::Normal(EsValue::Obj(o)))),
        Err(_) => Err(Halt::NoMemory),
    }
}
