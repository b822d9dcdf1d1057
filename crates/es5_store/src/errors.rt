//! Errors that a run throws: plain objects with own `name` and `message`.

ghost use Rattle.std.specs.Prelude.{◌≡◌, ◌<◌, ◌++◌, List, length, codes, OnOk, IfOk, Some};
ghost use Rattle.es5_tree.specs.Values.{Str};
ghost use Rattle.es5_tree.specs.Objects.Cells.{Object, new_cell, put};
ghost use Rattle.es5_tree.specs.Intrinsics.Made.{object_prototype};
ghost use Rattle.es5_tree.specs.Objects.Links.{cell_at};
ghost use Rattle.es5_tree.specs.Intrinsics.Valid.{Valid};
ghost use Rattle.es5_objects.specs.Heap.{with_cell};
ghost use Rattle.es5_evaluation.specs.Task.{Scope};
ghost use Rattle.es5_evaluation.specs.Evaluate.{error_object, not_defined, raise, type_error};
ghost use Rattle.es5_code.specs.declared.node.Node.{Node};
ghost use Rattle.es5_host.specs.Answers.{with_new};
ghost use Rattle.es5_store.specs.Store.{Sound};
ghost use Rattle.es5_store.specs.Steps.{Quiet};

use crate::effect::{Effect, Halt};
use crate::store::Store;
use es5_objects::{EsText, EsValue, ObjHeap};
use es5_pending::Completion;
use es5_tree::word_units;
use opal_base::{NoMemory, Units};
use std::alloc::Global;

/// The number of `Object.prototype`.
pub const OBJECT_PROTOTYPE: u32 = 0;

// Gives an object a property of this name, with a text.
fn give(alloc: Global, heap: &mut ObjHeap, o: u32, name: &[u8], text: Units) -> Result<(), NoMemory>
    requires object { o < length heap.old.cells }
    requires plain { (cell_at heap.old.cells o).kind ≡ Object }
    ensures put { OnOk result (heap.new ≡ with_cell heap.old o (put (cell_at heap.old.cells o) name.now (Str text))) }
    ensures count { length heap.new.cells ≡ length heap.old.cells }
{
    let text = EsText::new(alloc, text)?;
    heap.put(o, word_units(alloc, name)?, EsValue::Str(text))
}

// Gives a plain object its name and its message.
fn give_both(
    alloc: Global,
    heap: &mut ObjHeap,
    o: u32,
    name: Units,
    message: Units,
) -> Result<(), NoMemory>
    requires object { o < length heap.old.cells }
    requires fresh { cell_at heap.old.cells o ≡ new_cell Object (Some object_prototype) }
    ensures put { OnOk result (heap.new ≡ with_cell heap.old o (error_object name message)) }
    ensures count { length heap.new.cells ≡ length heap.old.cells }
{
    give(alloc, heap, o, b"name", name)?;
    give(alloc, heap, o, b"message", message)
}

// Makes an error object, which there is room for.
fn make_error(
    alloc: Global,
    heap: &mut ObjHeap,
    name: &[u8],
    message: Units,
) -> Result<u32, NoMemory>
    requires { Valid heap.old.cells }
    ensures number { IfOk result (λ o. o ≡ length heap.old.cells) }
    ensures made { OnOk result (heap.new ≡ with_new heap.old (error_object name.now message)) }
    ensures valid { OnOk result (Valid heap.new.cells) }
{
    let name = word_units(alloc, name)?;
    let o = match heap.create(Some(OBJECT_PROTOTYPE)) {
        Ok(o) => o,
        Err(_) => return Err(NoMemory),
    };
    give_both(alloc, heap, o, name, message)?;
    Ok(o)
}

/// Throws an error.
pub fn raise(alloc: Global, store: &mut Store, name: &[u8], message: Units) -> Result<Effect, Halt>
    requires sound { Sound store.old }
    ensures sound { OnOk result (Sound store.new) }
    ensures limit { store.new.limit ≡ store.old.limit }
    ensures does { (T : List Node) (ρ : Scope) → Quiet result T ρ (raise name.now message) store.old store.new }
{
    if store.is_full() {
        return Err(Halt::CellsFull);
    }
    match make_error(alloc, &mut store.heap, name, message) {
        Ok(o) => Ok(Effect::Ended(Completion::Throw(EsValue::Obj(o)))),
        Err(_) => Err(Halt::NoMemory),
    }
}

/// Throws a TypeError.
pub fn type_error(alloc: Global, store: &mut Store, message: &[u8]) -> Result<Effect, Halt>
    requires sound { Sound store.old }
    ensures sound { OnOk result (Sound store.new) }
    ensures limit { store.new.limit ≡ store.old.limit }
    ensures does { (T : List Node) (ρ : Scope) → Quiet result T ρ (type_error message.now) store.old store.new }
{
    match word_units(alloc, message) {
        Ok(message) => raise(alloc, store, b"TypeError", message),
        Err(_) => Err(Halt::NoMemory),
    }
}

/// Throws a ReferenceError for a name without a binding.
pub fn not_defined(alloc: Global, store: &mut Store, name: &Units) -> Result<Effect, Halt>
    requires sound { Sound store.old }
    ensures sound { OnOk result (Sound store.new) }
    ensures limit { store.new.limit ≡ store.old.limit }
    ensures does { (T : List Node) (ρ : Scope) → Quiet result T ρ (not_defined name.now) store.old store.new }
{
    match not_defined_message(alloc, name) {
        Ok(message) => raise(alloc, store, b"ReferenceError", message),
        Err(_) => Err(Halt::NoMemory),
    }
}

// `not defined: `
const NOT_DEFINED: [u16; 13] = [110, 111, 116, 32, 100, 101, 102, 105, 110, 101, 100, 58, 32];

// `not defined: ` and a name.
fn not_defined_message(alloc: Global, name: &Units) -> Result<Units, NoMemory>
    ensures { IfOk result (λ text. text ≡ codes "not defined: " ++ name.now) }
{
    let mut units = match Vec::from_slice(alloc, &NOT_DEFINED) {
        Ok(units) => units,
        Err(_) => return Err(NoMemory),
    };
    match units.extend_from_slice(name.as_slice()) {
        Ok(()) => Ok(Units::from_vec(units)),
        Err(_) => Err(NoMemory),
    }
}
