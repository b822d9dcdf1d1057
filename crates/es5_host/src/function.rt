//! The functions of functions (ECMA-262 5.1, section 15.3.4).

ghost use Rattle.std.specs.Prelude.{◌≡◌, ◌<◌, ◌∷◌, [], ◌++◌, All, length, map, IfOk, IfSome, OnOk};
ghost use Rattle.es5_tree.specs.Objects.Links.{get};
ghost use Rattle.es5_tree.specs.Objects.Names.{decimal};
ghost use Rattle.es5_tree.specs.Intrinsics.Rows.{Invokes, apply_row, call_row, callee_of, covered, elements, is_passed_on, or_undefined, passed_on, two_of};
ghost use Rattle.es5_tree.specs.Intrinsics.Valid.{Names};
ghost use Rattle.es5_objects.specs.Heap.{Heap};
ghost use Rattle.es5_objects.specs.Values.{value_of, kind_of};
ghost use Rattle.es5_host.specs.Answers.{Answered};
ghost use Rattle.es5_host.specs.Items.{values};

use crate::answer::{HostAnswer, not_covered};
use crate::argument::{object_of, two_of};
use crate::array::{length_name, listed_length};
use crate::values::EsValues;
use es5_objects::{CellKind, EsValue, ObjHeap, decimal};
use opal_base::{NoMemory, Units};
use std::alloc::Global;

// The number of `Function.prototype.call`.
const CALL: u32 = 5;

// The number of `Function.prototype.apply`.
const APPLY: u32 = 6;

// Whether a call may be passed on to a function of this kind.
fn is_passed_on(kind: CellKind) -> bool
    ensures { result ≡ is_passed_on (kind_of kind) }
{
    match kind {
        CellKind::Function { code, scope } => true,
        CellKind::Host(which) => !(which == CALL || which == APPLY),
        _ => false,
    }
}

// The function that a value is, where a call may be passed on to it.
fn callee_of(heap: &ObjHeap, this: &EsValue) -> Option<u32>
    requires { Names (length heap.now.cells) (value_of this.now) }
    ensures { result ≡ callee_of heap.now.cells (value_of this.now) }
{
    match this {
        EsValue::Obj(o) => {
            if is_passed_on(heap.kind(*o)) {
                Some(*o)
            } else {
                None
            }
        }
        _ => None,
    }
}

// The same values again.
fn share_all(alloc: Global, items: &[EsValue]) -> Result<EsValues, NoMemory>
    ensures { IfOk result (λ list. list ≡ values items.now) }
{
    let mut list = EsValues::new(alloc);
    for value in items {
        list.push(value.share()?)?;
    }
    Ok(list)
}

// Passes a call on: the first argument is `this`.
fn pass_on(alloc: Global, callee: u32, args: &EsValues) -> HostAnswer
    ensures { (h : Heap) → Answered (passed_on callee args.now) result h h }
{
    match args.as_slice() {
        [] => HostAnswer::Invoke {
            callee,
            this: EsValue::Undefined,
            args: EsValues::new(alloc),
        },
        [this, rest @ ..] => {
            let this = match this.share() {
                Ok(this) => this,
                Err(_) => return HostAnswer::NoMemory,
            };
            match share_all(alloc, rest) {
                Ok(args) => HostAnswer::Invoke { callee, this, args },
                Err(_) => HostAnswer::NoMemory,
            }
        }
    }
}

/// `Function.prototype.call` (15.3.4.4).
pub fn call(alloc: Global, heap: &ObjHeap, this: &EsValue, args: &EsValues) -> HostAnswer
    requires { Names (length heap.now.cells) (value_of this.now) }
    ensures { Answered (call_row heap.now.cells (value_of this.now) args.now) result heap.now heap.now }
{
    match callee_of(heap, this) {
        None => not_covered(),
        Some(callee) => pass_on(alloc, callee, args),
    }
}

// The value of a property, or undefined.
fn value_or_undefined(heap: &ObjHeap, o: u32, name: &Units) -> Result<EsValue, NoMemory>
    requires { o < length heap.now.cells }
    ensures { IfOk result (λ value. value_of value ≡ or_undefined (get heap.now.cells o name.now)) }
{
    match heap.get(o, name) {
        Some(value) => Ok(value.share()?),
        None => Ok(EsValue::Undefined),
    }
}

// A call has at most so many arguments; more are answered as want of memory before one is looked at.
const MOST_ARGUMENTS: u32 = 1_048_576;

// What an object lists at the indices below a count.
fn listed(alloc: Global, heap: &ObjHeap, o: u32, count: u32) -> Result<EsValues, NoMemory>
    requires { o < length heap.now.cells }
    ensures { IfOk result (λ list. list ≡ map or_undefined (elements heap.now.cells o 0 count)) }
{
    if MOST_ARGUMENTS < count {
        return Err(NoMemory);
    }
    let mut list = EsValues::new(alloc);
    for i in 0..count {
        let name = decimal(alloc, i)?;
        list.push(value_or_undefined(heap, o, &name)?)?;
    }
    Ok(list)
}

// Passes a call on with what an object lists.
fn apply_listed(
    alloc: Global,
    heap: &ObjHeap,
    callee: u32,
    first: &EsValue,
    o: u32,
    count: u32,
) -> HostAnswer
    requires { o < length heap.now.cells }
    ensures { Answered (Invokes callee (value_of first.now) (map or_undefined (elements heap.now.cells o 0 count))) result heap.now heap.now }
{
    let this = match first.share() {
        Ok(this) => this,
        Err(_) => return HostAnswer::NoMemory,
    };
    match listed(alloc, heap, o, count) {
        Ok(args) => HostAnswer::Invoke { callee, this, args },
        Err(_) => HostAnswer::NoMemory,
    }
}

// Passes a call on with what a value lists.
fn apply_to(
    alloc: Global,
    heap: &ObjHeap,
    this: &EsValue,
    first: &EsValue,
    list: &EsValue,
) -> HostAnswer
    requires this { Names (length heap.now.cells) (value_of this.now) }
    requires list { Names (length heap.now.cells) (value_of list.now) }
    ensures { Answered (apply_row heap.now.cells (value_of this.now) (value_of first.now) (value_of list.now)) result heap.now heap.now }
{
    let name = match length_name(alloc) {
        Ok(name) => name,
        Err(_) => return HostAnswer::NoMemory,
    };
    match callee_of(heap, this) {
        None => not_covered(),
        Some(callee) => match object_of(list) {
            None => not_covered(),
            Some(o) => match listed_length(heap, o, &name) {
                None => not_covered(),
                Some(count) => apply_listed(alloc, heap, callee, first, o, count),
            },
        },
    }
}

/// `Function.prototype.apply` (15.3.4.3).
pub fn apply(alloc: Global, heap: &ObjHeap, this: &EsValue, args: &EsValues) -> HostAnswer
    requires this { Names (length heap.now.cells) (value_of this.now) }
    requires args { All (Names (length heap.now.cells)) args.now }
    ensures { Answered (covered (two_of args.now) (λ vs. apply_row heap.now.cells (value_of this.now) vs.0 vs.1)) result heap.now heap.now }
{
    match two_of(args) {
        None => not_covered(),
        Some((first, list)) => apply_to(alloc, heap, this, first, list),
    }
}
