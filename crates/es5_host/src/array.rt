//! The functions that make, read or change arrays (ECMA-262 5.1, sections 15.2.3.14, 15.4.3 and 15.4.4).

ghost use Rattle.std.specs.Prelude.{◌≡◌, ◌<◌, ◌+◌, ◌-◌, ◌&&◌, nat_lt, nat_le, pos, All, length, map, Some, IfOk, IfSome};
ghost use Rattle.es5_tree.specs.Values.{Str, Num};
ghost use Rattle.es5_tree.specs.Objects.Names.{decimal, length_name, index_end};
ghost use Rattle.es5_tree.specs.Objects.Cells.{keys, put};
ghost use Rattle.es5_tree.specs.Objects.Links.{cell_at};
ghost use Rattle.es5_tree.specs.Intrinsics.Rows.{Sets, covered, one_of, two_of, names_of, is_array_row, array_at, as_length, natural_of, listed_length, Makes, array_of, elements, push, slice, where_true};
ghost use Rattle.es5_tree.specs.Intrinsics.Valid.{Names, Valid};
ghost use Rattle.es5_objects.specs.Values.{value_of};
ghost use Rattle.es5_host.specs.Answers.{Answered};

use crate::answer::{HostAnswer, not_covered};
use crate::argument::{natural_of, object_of, one_of, two_of};
use crate::element::{make_array, name_elements};
use crate::present::{make_present, present};
use crate::values::EsValues;
use es5_objects::{EsValue, ObjHeap, decimal};
use es5_tree::{SafeInt, word_units};
use opal_base::{NoMemory, Units};
use std::alloc::Global;

/// The array that a value is.
pub fn array_at(heap: &ObjHeap, value: &EsValue) -> Option<u32>
    requires { Names (length heap.now.cells) (value_of value.now) }
    ensures array { result ≡ array_at heap.now.cells (value_of value.now) }
    ensures within { IfSome result (λ o. o < length heap.now.cells) }
{
    match value {
        EsValue::Obj(o) => {
            if heap.kind(*o).is_array() {
                Some(*o)
            } else {
                None
            }
        }
        _ => None,
    }
}

// An array has fewer elements.
const MOST: usize = 4_294_967_295;

// The largest number that may be a `length`.
const LARGEST_LENGTH: u64 = 4_294_967_295;

// The number that a value is, where it may be a `length`.
fn as_length(value: &EsValue) -> Option<u32>
    ensures { result ≡ as_length (natural_of (value_of value.now)) }
{
    match natural_of(value) {
        None => None,
        Some(n) => {
            if n <= LARGEST_LENGTH {
                Some(n as u32)
            } else {
                None
            }
        }
    }
}

/// The `length` of an array or an arguments object, where it is one; the name is `length`.
pub fn listed_length(heap: &ObjHeap, o: u32, name: &Units) -> Option<u32>
    requires object { o < length heap.now.cells }
    requires name { name.now ≡ length_name }
    ensures { result ≡ listed_length (cell_at heap.now.cells o) }
{
    if !heap.kind(o).has_length() {
        return None;
    }
    match heap.own(o, name) {
        None => None,
        Some(value) => as_length(value),
    }
}

/// `Array.isArray` (15.4.3.2).
pub fn is_array(heap: &ObjHeap, args: &EsValues) -> HostAnswer
    requires { All (Names (length heap.now.cells)) args.now }
    ensures { Answered (covered (one_of args.now) (is_array_row heap.now.cells)) result heap.now heap.now }
{
    match one_of(args) {
        None => not_covered(),
        Some(v) => HostAnswer::Value(EsValue::Bool(array_at(heap, v).is_some())),
    }
}

// The names of an object as a new array.
fn names_array(alloc: Global, heap: &mut ObjHeap, o: u32) -> HostAnswer
    requires object { o < length heap.old.cells }
    requires valid { Valid heap.old.cells }
    ensures answer { Answered (Makes (array_of (map (λ name. Some (Str name)) (keys (cell_at heap.old.cells o))))) result heap.old heap.new }
    ensures valid { Valid heap.new.cells }
{
    let names = match heap.keys(o) {
        Ok(names) => names,
        Err(_) => return HostAnswer::NoMemory,
    };
    let items = match name_elements(alloc, &names) {
        Ok(items) => items,
        Err(_) => return HostAnswer::NoMemory,
    };
    if items.len() > MOST {
        return HostAnswer::NoMemory;
    }
    make_array(alloc, heap, &items)
}

// The names of a value as a new array.
fn names_from(alloc: Global, heap: &mut ObjHeap, v: &EsValue) -> HostAnswer
    requires v { Names (length heap.old.cells) (value_of v.now) }
    requires valid { Valid heap.old.cells }
    ensures answer { Answered (names_of heap.old.cells (value_of v.now)) result heap.old heap.new }
    ensures valid { Valid heap.new.cells }
{
    match object_of(v) {
        None => not_covered(),
        Some(o) => names_array(alloc, heap, o),
    }
}

/// `Object.keys` (15.2.3.14).
pub fn keys(alloc: Global, heap: &mut ObjHeap, args: &EsValues) -> HostAnswer
    requires args { All (Names (length heap.old.cells)) args.now }
    requires valid { Valid heap.old.cells }
    ensures answer { Answered (covered (one_of args.now) (names_of heap.old.cells)) result heap.old heap.new }
    ensures valid { Valid heap.new.cells }
{
    match one_of(args) {
        None => not_covered(),
        Some(v) => names_from(alloc, heap, v),
    }
}

/// The text `length`.
pub fn length_name(alloc: Global) -> Result<Units, NoMemory>
    ensures { IfOk result (λ name. name ≡ length_name) }
{
    word_units(alloc, b"length")
}

// Puts a value at the end of an array of this length.
fn push_at(alloc: Global, heap: &mut ObjHeap, o: u32, n: u32, v: &EsValue) -> HostAnswer
    requires object { o < length heap.old.cells }
    requires v { Names (length heap.old.cells) (value_of v.now) }
    requires valid { Valid heap.old.cells }
    ensures answer { Answered (where_true (nat_lt n index_end) (Sets (Num (pos (n + 1))) o (put (cell_at heap.old.cells o) (decimal n) (value_of v.now)))) result heap.old heap.new }
    ensures valid { Valid heap.new.cells }
{
    if n == u32::MAX {
        return not_covered();
    }
    let name = match decimal(alloc, n) {
        Ok(name) => name,
        Err(_) => return HostAnswer::NoMemory,
    };
    let value = match v.share() {
        Ok(value) => value,
        Err(_) => return HostAnswer::NoMemory,
    };
    match heap.put(o, name, value) {
        Ok(()) => HostAnswer::Value(EsValue::Num(SafeInt::from_u32(n + 1))),
        Err(_) => HostAnswer::NoMemory,
    }
}

// Puts a value at the end of a value.
fn push_to(alloc: Global, heap: &mut ObjHeap, this: &EsValue, v: &EsValue) -> HostAnswer
    requires this { Names (length heap.old.cells) (value_of this.now) }
    requires v { Names (length heap.old.cells) (value_of v.now) }
    requires valid { Valid heap.old.cells }
    ensures answer { Answered (push heap.old.cells (value_of this.now) (value_of v.now)) result heap.old heap.new }
    ensures valid { Valid heap.new.cells }
{
    let name = match length_name(alloc) {
        Ok(name) => name,
        Err(_) => return HostAnswer::NoMemory,
    };
    match array_at(heap, this) {
        None => not_covered(),
        Some(o) => match listed_length(heap, o, &name) {
            None => not_covered(),
            Some(n) => push_at(alloc, heap, o, n, v),
        },
    }
}

/// `Array.prototype.push` of one value (15.4.4.7).
pub fn push(alloc: Global, heap: &mut ObjHeap, this: &EsValue, args: &EsValues) -> HostAnswer
    requires this { Names (length heap.old.cells) (value_of this.now) }
    requires args { All (Names (length heap.old.cells)) args.now }
    requires valid { Valid heap.old.cells }
    ensures answer { Answered (covered (one_of args.now) (push heap.old.cells (value_of this.now))) result heap.old heap.new }
    ensures valid { Valid heap.new.cells }
{
    match one_of(args) {
        None => not_covered(),
        Some(v) => push_to(alloc, heap, this, v),
    }
}

// A part of an array of this length as a new array.
fn slice_at(alloc: Global, heap: &mut ObjHeap, o: u32, n: u32, i: u64, j: u64) -> HostAnswer
    requires object { o < length heap.old.cells }
    requires valid { Valid heap.old.cells }
    ensures answer { Answered (where_true (nat_le i j && nat_le j n) (Makes (array_of (elements heap.old.cells o i (j - i))))) result heap.old heap.new }
    ensures valid { Valid heap.new.cells }
{
    if !(i <= j && j <= u64::from(n)) {
        return not_covered();
    }
    match present(alloc, heap, o, i as u32, (j - i) as u32) {
        Ok(items) => make_present(alloc, heap, &items),
        Err(_) => HostAnswer::NoMemory,
    }
}

// A part of a value as a new array.
fn slice_of(
    alloc: Global,
    heap: &mut ObjHeap,
    this: &EsValue,
    v: &EsValue,
    w: &EsValue,
) -> HostAnswer
    requires this { Names (length heap.old.cells) (value_of this.now) }
    requires valid { Valid heap.old.cells }
    ensures answer { Answered (slice heap.old.cells (value_of this.now) (value_of v.now) (value_of w.now)) result heap.old heap.new }
    ensures valid { Valid heap.new.cells }
{
    let name = match length_name(alloc) {
        Ok(name) => name,
        Err(_) => return HostAnswer::NoMemory,
    };
    match array_at(heap, this) {
        None => not_covered(),
        Some(o) => match listed_length(heap, o, &name) {
            None => not_covered(),
            Some(n) => match natural_of(v) {
                None => not_covered(),
                Some(i) => match natural_of(w) {
                    None => not_covered(),
                    Some(j) => slice_at(alloc, heap, o, n, i, j),
                },
            },
        },
    }
}

/// `Array.prototype.slice` (15.4.4.10).
pub fn slice(alloc: Global, heap: &mut ObjHeap, this: &EsValue, args: &EsValues) -> HostAnswer
    requires this { Names (length heap.old.cells) (value_of this.now) }
    requires valid { Valid heap.old.cells }
    ensures answer { Answered (covered (two_of args.now) (λ vs. slice heap.old.cells (value_of this.now) vs.0 vs.1)) result heap.old heap.new }
    ensures valid { Valid heap.new.cells }
{
    match two_of(args) {
        None => not_covered(),
        Some((v, w)) => slice_of(alloc, heap, this, v, w),
    }
}
