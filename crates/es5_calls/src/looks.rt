//! The steps that look at objects, globals and functions, and those on a list of names.

ghost use Rattle.es5_tree.specs.Intrinsics.Valid.{Valid};

use crate::shown::{show, show_count, show_number, show_units, show_value};
use crate::words::{first_word, object, units};
use es5_host::{Globals, HostFn, heaps_stay_valid, host_fn};
use es5_objects::{CellKind, ObjHeap};
use opal_base::{Bytes, NoMemory};
use std::alloc::Global;

/// `objects`: how many there are, and how many there is room for.
pub fn objects(alloc: Global, heap: &ObjHeap, out: &mut Bytes) -> Result<(), NoMemory> {
    show_number(alloc, out, i64::from(heap.len()))?;
    show(out, " of ")?;
    show_number(alloc, out, i64::from(heap.capacity()))
}

/// `own OBJECT NAME`
pub fn own(alloc: Global, heap: &ObjHeap, words: &str, out: &mut Bytes) -> Result<(), NoMemory> {
    let (word, name) = first_word(words);
    let Some(o) = object(word, heap.len()) else {
        return show(out, "no object");
    };
    match heap.own(o, &units(alloc, name)?) {
        Some(value) => show_value(alloc, out, value),
        None => show(out, "none"),
    }
}

/// `delete OBJECT NAME`
pub fn delete(
    alloc: Global,
    heap: &mut ObjHeap,
    words: &str,
    out: &mut Bytes,
) -> Result<(), NoMemory>
    requires { Valid heap.old.cells }
    ensures { Valid heap.new.cells }
{
    let (word, name) = first_word(words);
    let Some(o) = object(word, heap.len()) else {
        return show(out, "no object");
    };
    let name = units(alloc, name)?;
    if heap.kind(o).is_array() {
        return show(out, "an array");
    }
    heaps_stay_valid();
    let there = heap.delete(o, &name);
    show(out, if there { "true" } else { "false" })
}

/// `names OBJECT`: the listed names, each behind a comma.
pub fn names(alloc: Global, heap: &ObjHeap, word: &str, out: &mut Bytes) -> Result<(), NoMemory> {
    let Some(o) = object(word, heap.len()) else {
        return show(out, "no object");
    };
    let names = heap.keys(o)?;
    for i in 0..names.len() {
        show(out, ",")?;
        show_units(alloc, out, names.at(i))?;
    }
    Ok(())
}

/// `kind OBJECT`
pub fn kind(alloc: Global, heap: &ObjHeap, word: &str, out: &mut Bytes) -> Result<(), NoMemory> {
    let Some(o) = object(word, heap.len()) else {
        return show(out, "no object");
    };
    match heap.kind(o) {
        CellKind::Object => show(out, "Object"),
        CellKind::Array => show(out, "Array"),
        CellKind::Arguments => show(out, "Arguments"),
        CellKind::Record { outer: _ } => show(out, "Record"),
        CellKind::Host(number) => {
            show(out, "Host ")?;
            show_number(alloc, out, i64::from(number))
        }
        CellKind::Function { code, scope } => {
            show(out, "Function ")?;
            show_number(alloc, out, i64::from(code))?;
            show(out, " ")?;
            show_number(alloc, out, i64::from(scope))
        }
    }
}

/// `function NUMBER`: the intrinsic function of this number, and its number.
pub fn function(alloc: Global, word: &str, out: &mut Bytes) -> Result<(), NoMemory> {
    match host_fn(word.parse::<u32>().unwrap_or(u32::MAX)) {
        Some(which) => {
            show(out, name_of(which))?;
            show(out, " ")?;
            show_number(alloc, out, i64::from(which.number()))
        }
        None => show(out, "none"),
    }
}

fn name_of(which: HostFn) -> &'static str {
    match which {
        HostFn::Create => "Create",
        HostFn::Call => "Call",
        HostFn::Apply => "Apply",
        HostFn::Write => "Write",
        HostFn::Line => "Line",
        _ => "another",
    }
}

/// `globals`: how many there are.
pub fn globals(alloc: Global, globals: &Globals, out: &mut Bytes) -> Result<(), NoMemory> {
    show_count(alloc, out, globals.len())
}

/// `global NAME`: its place, its name and its value.
pub fn global(
    alloc: Global,
    globals: &Globals,
    name: &str,
    out: &mut Bytes,
) -> Result<(), NoMemory> {
    let name = units(alloc, name)?;
    let Some(i) = globals.find(&name) else {
        return show(out, "none");
    };
    show_count(alloc, out, i)?;
    let (name, value) = globals.at(i);
    show(out, " ")?;
    show_units(alloc, out, name)?;
    show(out, " ")?;
    show_value(alloc, out, value)
}
