//! The functions of `Object` and of `Object.prototype` (ECMA-262 5.1, sections 15.2.3 and 15.2.4).

ghost use Rattle.std.specs.Prelude.{◌≡◌, ◌<◌, All, length};
ghost use Rattle.es5_tree.specs.Intrinsics.Rows.{covered, one_of, two_of, create, get_prototype_of, linked, set_prototype_of, has_own_property};
ghost use Rattle.es5_tree.specs.Objects.Links.{Within, in_chain};
ghost use Rattle.es5_tree.specs.Intrinsics.Valid.{Names, Valid};
ghost use Rattle.es5_objects.specs.Values.{value_of};
ghost use Rattle.es5_host.specs.Answers.{Answered, NamesInAnswer};

use crate::answer::{HostAnswer, not_covered, type_error};
use crate::argument::{link_of, link_value, object_of, one_of, text_of, two_of};
use crate::values::EsValues;
use es5_objects::{EsValue, ObjHeap};
use std::alloc::Global;

// The message where a value is no object.
const NOT_AN_OBJECT: &[u8] = b"not an object";

// `Object.create` of a value.
fn create_from(alloc: Global, heap: &mut ObjHeap, p: &EsValue) -> HostAnswer
    requires p { Names (length heap.old.cells) (value_of p.now) }
    requires valid { Valid heap.old.cells }
    ensures answer { Answered (create (value_of p.now)) result heap.old heap.new }
    ensures valid { Valid heap.new.cells }
{
    match link_of(p) {
        None => type_error(alloc, NOT_AN_OBJECT),
        Some(link) => match heap.create(link) {
            Ok(o) => HostAnswer::Value(EsValue::Obj(o)),
            Err(_) => HostAnswer::CellsFull,
        },
    }
}

/// `Object.create` (15.2.3.5).
pub fn create(alloc: Global, heap: &mut ObjHeap, args: &EsValues) -> HostAnswer
    requires args { All (Names (length heap.old.cells)) args.now }
    requires valid { Valid heap.old.cells }
    ensures answer { Answered (covered (one_of args.now) create) result heap.old heap.new }
    ensures valid { Valid heap.new.cells }
{
    match one_of(args) {
        None => not_covered(),
        Some(p) => create_from(alloc, heap, p),
    }
}

// `Object.getPrototypeOf` of a value.
fn prototype_of(alloc: Global, heap: &ObjHeap, v: &EsValue) -> HostAnswer
    requires { Names (length heap.now.cells) (value_of v.now) }
    ensures { Answered (get_prototype_of heap.now.cells (value_of v.now)) result heap.now heap.now }
{
    match object_of(v) {
        None => type_error(alloc, NOT_AN_OBJECT),
        Some(o) => HostAnswer::Value(link_value(heap.proto(o))),
    }
}

/// `Object.getPrototypeOf` (15.2.3.2).
pub fn get_prototype_of(alloc: Global, heap: &ObjHeap, args: &EsValues) -> HostAnswer
    requires { All (Names (length heap.now.cells)) args.now }
    ensures { Answered (covered (one_of args.now) (get_prototype_of heap.now.cells)) result heap.now heap.now }
{
    match one_of(args) {
        None => not_covered(),
        Some(v) => prototype_of(alloc, heap, v),
    }
}

// Sets the link of an object, where it makes no cycle.
fn set_link(alloc: Global, heap: &mut ObjHeap, o: u32, link: Option<u32>) -> HostAnswer
    requires object { o < length heap.old.cells }
    requires link { Within heap.old.cells link }
    requires valid { Valid heap.old.cells }
    ensures answer { Answered (linked (in_chain heap.old.cells o link) heap.old.cells o link) result heap.old heap.new }
    ensures valid { Valid heap.new.cells }
{
    match heap.set_proto(o, link) {
        Ok(()) => HostAnswer::Value(EsValue::Obj(o)),
        Err(_) => type_error(alloc, b"cyclic link"),
    }
}

// Sets the link of a value to a value.
fn set_from(alloc: Global, heap: &mut ObjHeap, v: &EsValue, p: &EsValue) -> HostAnswer
    requires v { Names (length heap.old.cells) (value_of v.now) }
    requires p { Names (length heap.old.cells) (value_of p.now) }
    requires valid { Valid heap.old.cells }
    ensures answer { Answered (set_prototype_of heap.old.cells (value_of v.now) (value_of p.now)) result heap.old heap.new }
    ensures valid { Valid heap.new.cells }
{
    match object_of(v) {
        None => type_error(alloc, NOT_AN_OBJECT),
        Some(o) => match link_of(p) {
            None => type_error(alloc, NOT_AN_OBJECT),
            Some(link) => set_link(alloc, heap, o, link),
        },
    }
}

/// `Object.setPrototypeOf`, the profile's own.
pub fn set_prototype_of(alloc: Global, heap: &mut ObjHeap, args: &EsValues) -> HostAnswer
    requires args { All (Names (length heap.old.cells)) args.now }
    requires valid { Valid heap.old.cells }
    ensures answer { Answered (covered (two_of args.now) (λ vs. set_prototype_of heap.old.cells vs.0 vs.1)) result heap.old heap.new }
    ensures valid { Valid heap.new.cells }
{
    match two_of(args) {
        None => not_covered(),
        Some((v, p)) => set_from(alloc, heap, v, p),
    }
}

// Whether an object has an own property of this name.
fn has_own(heap: &ObjHeap, this: &EsValue, v: &EsValue) -> HostAnswer
    requires { Names (length heap.now.cells) (value_of this.now) }
    ensures { Answered (has_own_property heap.now.cells (value_of this.now) (value_of v.now)) result heap.now heap.now }
{
    match object_of(this) {
        None => not_covered(),
        Some(o) => match text_of(v) {
            None => not_covered(),
            Some(name) => { HostAnswer::Value(EsValue::Bool(heap.own(o, name.units()).is_some())) }
        },
    }
}

/// `Object.prototype.hasOwnProperty` (15.2.4.5).
pub fn has_own_property(heap: &ObjHeap, this: &EsValue, args: &EsValues) -> HostAnswer
    requires { Names (length heap.now.cells) (value_of this.now) }
    ensures { Answered (covered (one_of args.now) (has_own_property heap.now.cells (value_of this.now))) result heap.now heap.now }
{
    match one_of(args) {
        None => not_covered(),
        Some(v) => has_own(heap, this, v),
    }
}
