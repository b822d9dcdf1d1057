//! What stands beside the heap: the globals, a list of names, the lines that are read and the sink; and
//! the steps on the last three.

ghost use Rattle.std.specs.Prelude.{◌<◌, length, IfSome};

use crate::shown::{show, show_count, show_value};
use crate::words::{first_word, named_value, units};
use es5_host::{Bindings, Globals, Lines};
use opal_base::{Bytes, MemSink, NoMemory};
use std::alloc::Global;

/// What stands beside the heap.
#[derive(Drop)]
pub struct Scene {
    pub globals: Globals,
    pub list: Bindings,
    pub lines: Lines,
    pub sink: MemSink,
}

/// `input TEXT`: what is read by lines, with `\n` for a line feed.
pub fn input(
    alloc: Global,
    scene: &mut Scene,
    text: &str,
    out: &mut Bytes,
) -> Result<(), NoMemory> {
    let Ok(text) = text.replace(alloc, "\\n", "\n") else {
        return Err(NoMemory);
    };
    scene.lines = Lines::new(units(alloc, text.as_str())?);
    show(out, "done")
}

/// `sink BYTES CALL`: a new sink, which takes so many bytes at once, and whose call of this number fails.
pub fn sink(
    alloc: Global,
    scene: &mut Scene,
    words: &str,
    out: &mut Bytes,
) -> Result<(), NoMemory> {
    let (bytes, call) = first_word(words);
    let bytes = bytes.parse::<u32>().unwrap_or(1).max(1);
    let mut failing = Vec::new(alloc);
    if let Ok(call) = call.parse::<u32>() {
        if failing.push(u64::from(call)).is_err() {
            return Err(NoMemory);
        }
    }
    scene.sink = MemSink::new(alloc, bytes as usize, failing);
    show(out, "done")
}

/// `taken`: what the sink has taken.
pub fn taken(scene: &Scene, out: &mut Bytes) -> Result<(), NoMemory> {
    out.extend(scene.sink.taken())
}

/// `bind NAME VALUE`: puts a name at the end of the list.
pub fn bind(
    alloc: Global,
    scene: &mut Scene,
    words: &str,
    out: &mut Bytes,
) -> Result<(), NoMemory> {
    let (name, value) = first_word(words);
    match scene.list.push(units(alloc, name)?, named_value(value)) {
        Ok(()) => show(out, "done"),
        Err(NoMemory) => show(out, "refused"),
    }
}

/// `bound`: how many names there are in the list.
pub fn bound(alloc: Global, scene: &Scene, out: &mut Bytes) -> Result<(), NoMemory> {
    show_count(alloc, out, scene.list.len())
}

/// `place NAME`: the place of a name in the list.
pub fn place(alloc: Global, scene: &Scene, name: &str, out: &mut Bytes) -> Result<(), NoMemory> {
    match scene.list.find(&units(alloc, name)?) {
        Some(i) => show_count(alloc, out, i),
        None => show(out, "none"),
    }
}

// The place in the list that a word is.
fn place_of(scene: &Scene, word: &str) -> Option<usize>
    ensures { IfSome result (λ i. i < length scene.now.list) }
{
    match word.parse::<u32>() {
        Ok(i) if (i as usize) < scene.list.len() => Some(i as usize),
        _ => None,
    }
}

/// `value PLACE`: the value at a place of the list.
pub fn value(alloc: Global, scene: &Scene, word: &str, out: &mut Bytes) -> Result<(), NoMemory> {
    match place_of(scene, word) {
        Some(i) => show_value(alloc, out, scene.list.value(i)),
        None => show(out, "none"),
    }
}

/// `set PLACE VALUE`: changes the value at a place of the list.
pub fn set(scene: &mut Scene, words: &str, out: &mut Bytes) -> Result<(), NoMemory> {
    let (word, value) = first_word(words);
    match place_of(scene, word) {
        Some(i) => {
            scene.list.set(i, named_value(value));
            show(out, "done")
        }
        None => show(out, "none"),
    }
}
