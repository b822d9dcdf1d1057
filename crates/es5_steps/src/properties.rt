//! Properties (ECMA-262 5.1, sections 8.7.1, 8.7.2 and 8.12).

ghost use Rattle.std.specs.Prelude.{◌≡◌, ◌<◌, List, length, is_some, IsTrue, OnOk, IfOk};
ghost use Rattle.es5_tree.specs.Values.{Obj};
ghost use Rattle.es5_tree.specs.Intrinsics.Rows.{as_length, natural_of};
ghost use Rattle.es5_evaluation.specs.Values.{property_from};
ghost use Rattle.es5_evaluation.specs.Task.{Scope};
ghost use Rattle.es5_evaluation.specs.Evaluate.{can_put, delete_property, read_property, write_property};
ghost use Rattle.es5_tree.specs.Objects.Cells.{CanPut, IsLength, is_array_length, put};
ghost use Rattle.es5_objects.specs.Heap.{with_cell};
ghost use Rattle.es5_tree.specs.Objects.Links.{cell_at, get};
ghost use Rattle.es5_objects.specs.Values.{value_if, value_of};
ghost use Rattle.es5_code.specs.declared.node.Node.{Node};
ghost use Rattle.es5_store.specs.Store.{Sound};
ghost use Rattle.es5_store.specs.Steps.{Quiet};

use es5_host::OutKind;
use es5_objects::{CellKind, EsText, EsValue, ObjHeap, is_length};
use es5_operators::{holder_of, own_of_primitive};
use es5_pending::Completion;
use es5_store::{Effect, Halt, Store, is_named, type_error};
use opal_base::{NoMemory, Pos, Units};
use std::alloc::Global;

/// 2^32-1, the greatest `length` of an array.
const GREATEST_LENGTH: i64 = 4_294_967_295;

// Whether a name is that of an array's `length`.
fn is_array_length(heap: &ObjHeap, o: u32, name: &Units) -> bool
    requires { o < length heap.now.cells }
    ensures { result ≡ is_array_length (cell_at heap.now.cells o) name.now }
{
    heap.kind(o).is_array() && is_length(name)
}

// Whether a value may be the `length` of an array.
fn is_whole_length(value: &EsValue) -> bool
    ensures may { result ≡ is_some (as_length (natural_of (value_of value.now))) }
    ensures length { IsTrue result → IsLength (value_of value.now) }
{
    match value {
        EsValue::Num(n) => 0 <= n.value() && n.value() <= GREATEST_LENGTH,
        _ => false,
    }
}

// Whether a value can be written to a property of an object: another than the `length` of an array, or
// a `length`.
fn can_put(heap: &ObjHeap, o: u32, name: &Units, value: &EsValue) -> bool
    requires { o < length heap.now.cells }
    ensures can { result ≡ can_put (cell_at heap.now.cells o) name.now (value_of value.now) }
    ensures length { IsTrue result → CanPut (cell_at heap.now.cells o) name.now (value_of value.now) }
{
    !is_array_length(heap, o, name) || is_whole_length(value)
}

// A property of an object or along its links.
fn inherited(heap: &ObjHeap, o: u32, name: &Units) -> Result<Option<EsValue>, NoMemory>
    requires { o < length heap.now.cells }
    ensures { IfOk result (λ v. value_if v ≡ get heap.now.cells o name.now) }
{
    match heap.get(o, name) {
        Some(value) => Ok(Some(value.share()?)),
        None => Ok(None),
    }
}

// A property of a value that has its properties from this object.
fn property_from(
    alloc: Global,
    heap: &ObjHeap,
    o: u32,
    base: &EsValue,
    name: &Units,
) -> Result<EsValue, NoMemory>
    requires { o < length heap.now.cells }
    ensures { IfOk result (λ v. value_of v ≡ property_from heap.now.cells o (value_of base.now) name.now) }
{
    if let Some(value) = own_of_primitive(alloc, base, name)? {
        return Ok(value);
    }
    match inherited(heap, o, name)? {
        Some(value) => Ok(value),
        None => Ok(EsValue::Undefined),
    }
}

// Puts a value, which stays with the caller.
fn put(heap: &mut ObjHeap, o: u32, name: &EsText, value: &EsValue) -> Result<(), NoMemory>
    requires object { o < length heap.old.cells }
    requires whole_length { CanPut (cell_at heap.old.cells o) name.now (value_of value.now) }
    ensures { OnOk result (heap.new ≡ with_cell heap.old o (put (cell_at heap.old.cells o) name.now (value_of value.now))) }
{
    let written = value.share()?;
    heap.put(o, name.units().try_clone()?, written)
}

#[tactic(auto, using(es5_store::proofs::Walks::no_memory, crate::proofs::PropertySteps::no_holder, crate::proofs::PropertySteps::property_read))]
/// A property of a value (8.7.1).
pub fn read_property(
    alloc: Global,
    store: &mut Store,
    base: &EsValue,
    name: &EsText,
) -> Result<Effect, Halt>
    requires sound { Sound store.old }
    ensures sound { OnOk result (Sound store.new) }
    ensures limit { store.new.limit ≡ store.old.limit }
    ensures does { (T : List Node) (ρ : Scope) → Quiet result T ρ (read_property (value_of base.now) name.now) store.old store.new }
{
    match holder_of(base) {
        None => type_error(alloc, store, b"no properties"),
        Some(o) if o < store.heap.len() => {
            match property_from(alloc, &store.heap, o, base, name.units()) {
                Ok(value) => Ok(Effect::Ended(Completion::Normal(value))),
                Err(_) => Err(Halt::NoMemory),
            }
        }
        Some(_) => Err(Halt::NoMemory),
    }
}

#[tactic(auto, using(es5_store::proofs::Walks::no_memory), unfolding(es5_evaluation::specs::Evaluate::write_property, es5_evaluation::specs::Evaluate::delete_property))]
/// Writes a property (8.7.2). One of a primitive can't be written.
pub fn write_property(
    alloc: Global,
    store: &mut Store,
    base: &EsValue,
    name: &EsText,
    value: EsValue,
    pos: Pos,
) -> Result<Effect, Halt>
    requires sound { Sound store.old }
    ensures sound { OnOk result (Sound store.new) }
    ensures limit { store.new.limit ≡ store.old.limit }
    ensures does { (T : List Node) (ρ : Scope) → Quiet result T ρ (write_property pos (value_of base.now) name.now (value_of value)) store.old store.new }
{
    match base {
        EsValue::Obj(o) => write_own(store, *o, name, value, pos),
        _ => type_error(alloc, store, b"not writable"),
    }
}

#[tactic(auto, using(es5_store::proofs::Walks::no_memory, crate::proofs::PropertySteps::length_refused, crate::proofs::PropertySteps::property_written, crate::proofs::PropertySteps::property_put), unfolding(es5_evaluation::specs::Evaluate::write_property, es5_evaluation::specs::Evaluate::delete_property))]
// Writes an own property of an object.
fn write_own(
    store: &mut Store,
    o: u32,
    name: &EsText,
    value: EsValue,
    pos: Pos,
) -> Result<Effect, Halt>
    requires sound { Sound store.old }
    ensures sound { OnOk result (Sound store.new) }
    ensures limit { store.new.limit ≡ store.old.limit }
    ensures does { (T : List Node) (ρ : Scope) → Quiet result T ρ (write_property pos (Obj o) name.now (value_of value)) store.old store.new }
{
    if o >= store.heap.len() || !is_named(&store.heap, &value) {
        return Err(Halt::NoMemory);
    }
    if !can_put(&store.heap, o, name.units(), &value) {
        return Ok(Effect::Left(OutKind::Conversion, pos));
    }
    match put(&mut store.heap, o, name, &value) {
        Ok(()) => Ok(Effect::Ended(Completion::Normal(value))),
        Err(_) => Err(Halt::NoMemory),
    }
}

#[tactic(auto, using(es5_store::proofs::Walks::no_memory), unfolding(es5_evaluation::specs::Evaluate::write_property, es5_evaluation::specs::Evaluate::delete_property))]
/// Deletes a property (11.4.1). One of a primitive, and the `length` of an array, can't be
/// deleted.
pub fn delete_property(
    alloc: Global,
    store: &mut Store,
    base: &EsValue,
    name: &EsText,
) -> Result<Effect, Halt>
    requires sound { Sound store.old }
    ensures sound { OnOk result (Sound store.new) }
    ensures limit { store.new.limit ≡ store.old.limit }
    ensures does { (T : List Node) (ρ : Scope) → Quiet result T ρ (delete_property (value_of base.now) name.now) store.old store.new }
{
    match base {
        EsValue::Obj(o) => delete_own(alloc, store, *o, name),
        _ => type_error(alloc, store, b"not deletable"),
    }
}

#[tactic(auto, using(es5_store::proofs::Walks::no_memory, crate::proofs::PropertySteps::length_kept, crate::proofs::PropertySteps::property_deleted, crate::proofs::PropertySteps::still_sound), unfolding(es5_evaluation::specs::Evaluate::write_property, es5_evaluation::specs::Evaluate::delete_property))]
// Deletes an own property of an object.
fn delete_own(alloc: Global, store: &mut Store, o: u32, name: &EsText) -> Result<Effect, Halt>
    requires sound { Sound store.old }
    ensures sound { OnOk result (Sound store.new) }
    ensures limit { store.new.limit ≡ store.old.limit }
    ensures does { (T : List Node) (ρ : Scope) → Quiet result T ρ (delete_property (Obj o) name.now) store.old store.new }
{
    if o >= store.heap.len() {
        return Err(Halt::NoMemory);
    }
    if is_array_length(&store.heap, o, name.units()) {
        return type_error(alloc, store, b"not deletable");
    }
    store.heap.delete(o, name.units());
    Ok(Effect::Ended(Completion::Normal(EsValue::Bool(true))))
}
