//! What values are called (ECMA-262 5.1, section 11.4.3).

ghost use Rattle.std.specs.Prelude.{◌≡◌, IfOk};
ghost use Rattle.es5_tree.specs.Values.{Obj};
ghost use Rattle.es5_evaluation.specs.Values.{kind_name, type_name};
ghost use Rattle.es5_objects.specs.Values.{kind_of, value_of};

use es5_objects::{CellKind, EsText, EsValue, ObjHeap};
use es5_tree::word_units;
use opal_base::NoMemory;
use std::alloc::Global;

// What an object of a kind is called.
fn kind_name(kind: CellKind) -> &'static [u8]
    ensures { result.now ≡ kind_name (kind_of kind) }
{
    match kind {
        CellKind::Object => b"object",
        CellKind::Array => b"object",
        CellKind::Arguments => b"object",
        CellKind::Function { .. } => b"function",
        CellKind::Host(_) => b"function",
        CellKind::Record { .. } => b"object",
    }
}

// What an object is called; one that isn't there is a plain one.
fn object_name(heap: &ObjHeap, o: u32) -> &'static [u8]
    ensures { result.now ≡ type_name heap.now.cells (Obj o) }
{
    if o < heap.len() {
        kind_name(heap.kind(o))
    } else {
        b"object"
    }
}

/// What the type of a value is called.
pub fn type_name(alloc: Global, heap: &ObjHeap, v: &EsValue) -> Result<EsText, NoMemory>
    ensures { IfOk result (λ text. text ≡ type_name heap.now.cells (value_of v.now)) }
{
    let name: &[u8] = match v {
        EsValue::Undefined => b"undefined",
        EsValue::Null => b"object",
        EsValue::Bool(_) => b"boolean",
        EsValue::Num(_) => b"number",
        EsValue::Str(_) => b"string",
        EsValue::Obj(o) => object_name(heap, *o),
    };
    EsText::new(alloc, word_units(alloc, name)?)
}
