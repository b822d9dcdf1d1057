//! Lists of values as elements, and arrays (ECMA-262 5.1, sections 11.1.4 and 15.4).

ghost use Rattle.std.specs.Prelude.{◌≡◌, ◌<◌, ◌^◌, [], ◌∷◌, ◌++◌, All, List, length, map, IfOk, IsTrue, OnOk, Some};
ghost use Rattle.es5_tree.specs.Objects.Cells.{new_cell};
ghost use Rattle.es5_tree.specs.Intrinsics.Rows.{filled};
ghost use Rattle.es5_tree.specs.Intrinsics.Valid.{Names, Valid};
ghost use Rattle.es5_evaluation.specs.Task.{Scope};
ghost use Rattle.es5_evaluation.specs.Evaluate.{make_array};
ghost use Rattle.es5_objects.specs.Values.{kind_of, value_if, value_of};
ghost use Rattle.es5_host.specs.Answers.{with_new};
ghost use Rattle.es5_code.specs.declared.node.Node.{Node};
ghost use Rattle.es5_store.specs.Store.{Sound};
ghost use Rattle.es5_store.specs.Steps.{Quiet};

use crate::objects::{ARRAY_PROTOTYPE, GREATEST, new_object};
use es5_host::{EsValues, fill};
use es5_objects::{CellKind, EsValue, ObjHeap};
use es5_pending::Completion;
use es5_store::{Effect, Halt, Store, is_named};
use opal_base::NoMemory;
use std::alloc::Global;

/// Whether each of the values names an object that is there, or none.
pub(crate) fn are_named(heap: &ObjHeap, values: &EsValues) -> bool
    ensures { IsTrue result → All (Names (length heap.now.cells)) values.now }
{
    for i in 0..values.len() {
        if !is_named(heap, values.at(i)) {
            return false;
        }
    }
    true
}

// Puts a value at the end, as an element.
fn push_element(items: &mut Vec<Option<EsValue>>, value: &EsValue) -> Result<(), NoMemory>
    ensures { OnOk result (map value_if items.new.items ≡ map value_if items.old.items ++ Some (value_of value.now) ∷ []) }
{
    let item = value.share()?;
    match items.push(Some(item)) {
        Ok(()) => Ok(()),
        Err(_) => Err(NoMemory),
    }
}

// The values as elements.
fn elements(alloc: Global, values: &EsValues) -> Result<Vec<Option<EsValue>>, NoMemory>
    ensures { IfOk result (λ items. map value_if items.items ≡ map (λ v. Some v) values.now) }
{
    let mut items = Vec::new(alloc);
    for i in 0..values.len() {
        push_element(&mut items, values.at(i))?;
    }
    Ok(items)
}

/// Makes an object with these elements, which there is room for; its link is an intrinsic object.
pub(crate) fn new_filled(
    alloc: Global,
    heap: &mut ObjHeap,
    link: u32,
    kind: CellKind,
    values: &EsValues,
) -> Result<u32, NoMemory>
    requires valid { Valid heap.old.cells }
    requires link { link < 29 }
    ensures number { IfOk result (λ o. o ≡ length heap.old.cells) }
    ensures made { OnOk result (heap.new ≡ with_new heap.old (filled (new_cell (kind_of kind) (Some link)) 0 (map (λ v. Some v) values.now))) }
    ensures valid { OnOk result (Valid heap.new.cells) }
    ensures few { OnOk result (length values.now < 2 ^ 32) }
{
    if values.len() > GREATEST || !are_named(heap, values) {
        return Err(NoMemory);
    }
    let items = elements(alloc, values)?;
    let o = new_object(heap, link, kind)?;
    fill(alloc, heap, o, &items)?;
    Ok(o)
}

/// The value of an array expression whose elements have these values (11.1.4).
pub fn make_array(alloc: Global, store: &mut Store, values: EsValues) -> Result<Effect, Halt>
    requires sound { Sound store.old }
    ensures sound { OnOk result (Sound store.new) }
    ensures limit { store.new.limit ≡ store.old.limit }
    ensures does { (T : List Node) (ρ : Scope) → Quiet result T ρ (make_array values) store.old store.new }
{
    if store.is_full() {
        return Err(Halt::CellsFull);
    }
    match new_filled(
        alloc,
        &mut store.heap,
        ARRAY_PROTOTYPE,
        CellKind::Array,
        &values,
    ) {
        Ok(o) => Ok(Effect::Ended(Completion::Normal(EsValue::Obj(o)))),
        Err(_) => Err(Halt::NoMemory),
    }
}
