//! The steps.

ghost use Rattle.std.specs.Prelude.{◌<◌, length};
ghost use Rattle.es5_tree.specs.Objects.Cells.{CanPut};
ghost use Rattle.es5_tree.specs.Objects.Links.{cell_at};
ghost use Rattle.es5_tree.specs.Intrinsics.Valid.{Names, Valid};
ghost use Rattle.es5_objects.specs.Values.{value_of};

use crate::looks;
use crate::scene::{self, Scene};
use crate::shown::{show, show_answer, show_object, show_value};
use crate::words::{first_word, kind, object, units, value, values};
use es5_host::{Globals, HostFn, heaps_stay_valid, host_call, host_fn};
use es5_objects::{CellKind, EsValue, ObjHeap};
use es5_tree::SafeInt;
use opal_base::{Bytes, NoMemory, Units};
use std::alloc::Global;

// The object that a global is.
fn global(alloc: Global, globals: &Globals, name: &str) -> Result<Option<u32>, NoMemory> {
    let name = units(alloc, name)?;
    Ok(match globals.find(&name) {
        Some(i) => match globals.value(i) {
            EsValue::Obj(o) => Some(*o),
            _ => None,
        },
        None => None,
    })
}

// The object that a property of an object is.
fn member(
    alloc: Global,
    heap: &ObjHeap,
    o: Option<u32>,
    name: &str,
) -> Result<Option<u32>, NoMemory> {
    let name = units(alloc, name)?;
    Ok(match o {
        Some(o) if o < heap.len() => match heap.get(o, &name) {
            Some(EsValue::Obj(held)) => Some(*held),
            _ => None,
        },
        _ => None,
    })
}

// The intrinsic function at a path.
fn function_at(
    alloc: Global,
    heap: &ObjHeap,
    globals: &Globals,
    path: &str,
) -> Result<Option<HostFn>, NoMemory> {
    let (first, rest) = path.split_once('.').unwrap_or((path, ""));
    let mut at = global(alloc, globals, first)?;
    for name in rest.split('.') {
        at = member(alloc, heap, at, name)?;
    }
    Ok(match at {
        Some(o) if o < heap.len() => match heap.kind(o) {
            CellKind::Host(number) => host_fn(number),
            _ => None,
        },
        _ => None,
    })
}

// `call PATH THIS ARGUMENT..`
fn call(
    alloc: Global,
    heap: &mut ObjHeap,
    scene: &mut Scene,
    words: &str,
    out: &mut Bytes,
) -> Result<(), NoMemory>
    requires { Valid heap.old.cells }
    ensures { Valid heap.new.cells }
{
    let (path, words) = first_word(words);
    let (this, words) = first_word(words);
    let Some(which) = function_at(alloc, heap, &scene.globals, path)? else {
        return show(out, "no function");
    };
    let this = value(alloc, this, heap.len())?;
    let args = values(alloc, words, heap.len())?;
    let (lines, sink) = (&mut scene.lines, &mut scene.sink);
    let answer = host_call(alloc, heap, which, &this, &args, lines, sink);
    show_answer(alloc, out, &answer)
}

// `make KIND LINK`
fn make(alloc: Global, heap: &mut ObjHeap, words: &str, out: &mut Bytes) -> Result<(), NoMemory>
    requires { Valid heap.old.cells }
    ensures { Valid heap.new.cells }
{
    let (word, link) = first_word(words);
    let link = object(link, heap.len());
    heaps_stay_valid();
    match heap.create_as(link, kind(word)) {
        Ok(o) => show_object(alloc, out, o),
        Err(_) => show(out, "full"),
    }
}

// Writes a property.
fn write(heap: &mut ObjHeap, o: u32, name: Units, value: EsValue) -> Result<(), NoMemory>
    requires object { o < length heap.old.cells }
    requires whole_length { CanPut (cell_at heap.old.cells o) name (value_of value) }
    requires value { Names (length heap.old.cells) (value_of value) }
    requires valid { Valid heap.old.cells }
    ensures { Valid heap.new.cells }
{
    heaps_stay_valid();
    heap.put(o, name, value)
}

// `put OBJECT NAME VALUE`
fn put(alloc: Global, heap: &mut ObjHeap, words: &str, out: &mut Bytes) -> Result<(), NoMemory>
    requires { Valid heap.old.cells }
    ensures { Valid heap.new.cells }
{
    let (word, words) = first_word(words);
    let (name, word_of_value) = first_word(words);
    let Some(o) = object(word, heap.len()) else {
        return show(out, "no object");
    };
    let name = units(alloc, name)?;
    if heap.kind(o).is_array() {
        let number = word_of_value.parse::<u32>().unwrap_or(0);
        write(heap, o, name, EsValue::Num(SafeInt::from_u32(number)))?;
    } else {
        write(heap, o, name, value(alloc, word_of_value, heap.len())?)?;
    }
    show(out, "done")
}

// `get OBJECT NAME`
fn get(alloc: Global, heap: &ObjHeap, words: &str, out: &mut Bytes) -> Result<(), NoMemory> {
    let (word, name) = first_word(words);
    let Some(o) = object(word, heap.len()) else {
        return show(out, "no object");
    };
    match heap.get(o, &units(alloc, name)?) {
        Some(value) => show_value(alloc, out, value),
        None => show(out, "none"),
    }
}

// Takes a step that changes no object, and shows its answer.
fn look(
    alloc: Global,
    heap: &ObjHeap,
    scene: &mut Scene,
    verb: &str,
    words: &str,
    out: &mut Bytes,
) -> Result<(), NoMemory> {
    match verb {
        "get" => get(alloc, heap, words, out),
        "own" => looks::own(alloc, heap, words, out),
        "names" => looks::names(alloc, heap, words, out),
        "kind" => looks::kind(alloc, heap, words, out),
        "objects" => looks::objects(alloc, heap, out),
        "function" => looks::function(alloc, words, out),
        "global" => looks::global(alloc, &scene.globals, words, out),
        "globals" => looks::globals(alloc, &scene.globals, out),
        _ => stage(alloc, scene, verb, words, out),
    }
}

// Takes a step on what stands beside the heap, and shows its answer.
fn stage(
    alloc: Global,
    scene: &mut Scene,
    verb: &str,
    words: &str,
    out: &mut Bytes,
) -> Result<(), NoMemory> {
    match verb {
        "input" => scene::input(alloc, scene, words, out),
        "sink" => scene::sink(alloc, scene, words, out),
        "taken" => scene::taken(scene, out),
        "bind" => scene::bind(alloc, scene, words, out),
        "bound" => scene::bound(alloc, scene, out),
        "place" => scene::place(alloc, scene, words, out),
        "value" => scene::value(alloc, scene, words, out),
        "set" => scene::set(scene, words, out),
        _ => show(out, "no step"),
    }
}

/// Takes a step, and shows its answer.
pub fn step(
    alloc: Global,
    heap: &mut ObjHeap,
    scene: &mut Scene,
    line: &str,
    out: &mut Bytes,
) -> Result<(), NoMemory>
    requires { Valid heap.old.cells }
    ensures { Valid heap.new.cells }
{
    if line.is_empty() || line.starts_with('#') {
        return Ok(());
    }
    show(out, " = ")?;
    let (verb, words) = first_word(line);
    match verb {
        "make" => make(alloc, heap, words, out),
        "put" => put(alloc, heap, words, out),
        "delete" => looks::delete(alloc, heap, words, out),
        "call" => call(alloc, heap, scene, words, out),
        _ => look(alloc, heap, scene, verb, words, out),
    }
}
