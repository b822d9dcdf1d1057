//! The objects that stand before a script begins, and the globals (ECMA-262 5.1, section 15).

ghost use Rattle.std.specs.Prelude.{◌≡◌, ◌≤◌, ◌<◌, ◌+◌, [], ◌∷◌, ◌++◌, length, map, IfOk, OnOk, Some};
ghost use Rattle.es5_tree.specs.Values.{Obj};
ghost use Rattle.es5_tree.specs.Objects.Cells.{Host, Object, new_cell, put};
ghost use Rattle.es5_tree.specs.Objects.Links.{Within, cell_at};
ghost use Rattle.es5_tree.specs.Intrinsics.Made.{cells, constructors, functions, globals, host, prototypes};
ghost use Rattle.es5_objects.specs.Heap.{with_cell};
ghost use Rattle.es5_objects.specs.Values.{value_of};
ghost use Rattle.es5_host.specs.Answers.{with_new};
ghost use Rattle.es5_host.specs.Making.{holding, member_of, with_more};
ghost use Rattle.es5_host.specs.Values.{number_of};

use crate::answer::HostFn;
use crate::bindings::{Bindings, Globals};
use crate::element::ARRAY_PROTOTYPE;
use es5_objects::{CellKind, EsValue, ObjHeap};
use es5_tree::word_units;
use opal_base::NoMemory;
use std::alloc::Global;

/// How many intrinsic objects there are: the prototypes, the constructors, `$host` and the functions.
pub const INTRINSICS: u32 = 29;

// The numbers of the prototypes; those of arrays have a name already.
const OBJECT_PROTOTYPE: u32 = 0;

const FUNCTION_PROTOTYPE: u32 = 1;

const TEXT_PROTOTYPE: u32 = 3;

const NUMBER_PROTOTYPE: u32 = 4;

const TRUTH_PROTOTYPE: u32 = 5;

// The number of the first function, and how many functions there are.
const FIRST_FUNCTION: u32 = 13;

const FUNCTION_COUNT: u32 = 16;

// What a property of an intrinsic object holds.
#[derive(Clone, Copy, Drop)]
enum Member {
    Prototype(u32),
    Function(HostFn),
}

// It as a value.
fn member_value(member: Member) -> EsValue
    ensures { value_of result ≡ member_of member }
{
    match member {
        Member::Prototype(o) => EsValue::Obj(o),
        Member::Function(which) => EsValue::Obj(FIRST_FUNCTION + which.number()),
    }
}

// Gives an object a property of this name.
fn give(alloc: Global, heap: &mut ObjHeap, o: u32, member: &(&[u8], Member)) -> Result<(), NoMemory>
    requires object { o < length heap.old.cells }
    requires plain { (cell_at heap.old.cells o).kind ≡ Object }
    ensures put { OnOk result (heap.new ≡ with_cell heap.old o (put (cell_at heap.old.cells o) member.now.0.now (member_of member.now.1))) }
    ensures count { length heap.new.cells ≡ length heap.old.cells }
{
    let name = word_units(alloc, member.0)?;
    heap.put(o, name, member_value(member.1))
}

// Gives an object its properties.
fn give_all(
    alloc: Global,
    heap: &mut ObjHeap,
    o: u32,
    members: &[(&[u8], Member)],
) -> Result<(), NoMemory>
    requires object { o < length heap.old.cells }
    requires plain { (cell_at heap.old.cells o).kind ≡ Object }
    ensures { OnOk result (heap.new ≡ with_cell heap.old o (holding (cell_at heap.old.cells o) (map (λ m. (m.0.now, member_of m.1)) members.now))) }
{
    for member in members {
        give(alloc, heap, o, member)?;
    }
    Ok(())
}

// Makes an object with its properties.
fn object(
    alloc: Global,
    heap: &mut ObjHeap,
    link: Option<u32>,
    members: &[(&[u8], Member)],
) -> Result<(), NoMemory>
    requires { Within heap.old.cells link }
    ensures made { OnOk result (heap.new ≡ with_new heap.old (holding (new_cell Object link) (map (λ m. (m.0.now, member_of m.1)) members.now))) }
    ensures count { OnOk result (length heap.new.cells ≡ length heap.old.cells + 1) }
{
    match heap.create(link) {
        Ok(o) => give_all(alloc, heap, o, members),
        Err(_) => Err(NoMemory),
    }
}

// Makes the prototypes.
fn make_prototypes(alloc: Global, heap: &mut ObjHeap) -> Result<(), NoMemory>
    requires { heap.old.cells ≡ [] }
    ensures { OnOk result (heap.new ≡ with_more heap.old prototypes) }
{
    use Member::Function;
    let base = Some(OBJECT_PROTOTYPE);
    let own: [(&[u8], Member); 1] = [(b"hasOwnProperty", Function(HostFn::HasOwnProperty))];
    object(alloc, heap, None, &own)?;
    object(
        alloc,
        heap,
        base,
        &[
            (b"call", Function(HostFn::Call)),
            (b"apply", Function(HostFn::Apply)),
        ],
    )?;
    object(
        alloc,
        heap,
        base,
        &[
            (b"push", Function(HostFn::Push)),
            (b"slice", Function(HostFn::Slice)),
        ],
    )?;
    object(
        alloc,
        heap,
        base,
        &[
            (b"charCodeAt", Function(HostFn::CharCodeAt)),
            (b"substring", Function(HostFn::Substring)),
            (b"indexOf", Function(HostFn::IndexOf)),
        ],
    )?;
    object(alloc, heap, base, &[])?;
    object(alloc, heap, base, &[])?;
    Ok(())
}

// Makes the constructors, which hold the prototypes.
fn make_constructors(alloc: Global, heap: &mut ObjHeap) -> Result<(), NoMemory>
    requires { FUNCTION_PROTOTYPE < length heap.old.cells }
    ensures { OnOk result (heap.new ≡ with_more heap.old constructors) }
{
    use Member::{Function, Prototype};
    let base = Some(FUNCTION_PROTOTYPE);
    object(
        alloc,
        heap,
        base,
        &[
            (b"prototype", Prototype(OBJECT_PROTOTYPE)),
            (b"create", Function(HostFn::Create)),
            (b"getPrototypeOf", Function(HostFn::GetPrototypeOf)),
            (b"setPrototypeOf", Function(HostFn::SetPrototypeOf)),
            (b"keys", Function(HostFn::Keys)),
        ],
    )?;
    object(
        alloc,
        heap,
        base,
        &[(b"prototype", Prototype(FUNCTION_PROTOTYPE))],
    )?;
    object(
        alloc,
        heap,
        base,
        &[
            (b"prototype", Prototype(ARRAY_PROTOTYPE)),
            (b"isArray", Function(HostFn::IsArray)),
        ],
    )?;
    object(
        alloc,
        heap,
        base,
        &[
            (b"prototype", Prototype(TEXT_PROTOTYPE)),
            (b"fromCharCode", Function(HostFn::FromCharCode)),
        ],
    )?;
    object(
        alloc,
        heap,
        base,
        &[(b"prototype", Prototype(NUMBER_PROTOTYPE))],
    )?;
    object(
        alloc,
        heap,
        base,
        &[(b"prototype", Prototype(TRUTH_PROTOTYPE))],
    )?;
    Ok(())
}

// Makes `$host`.
fn make_host(alloc: Global, heap: &mut ObjHeap) -> Result<(), NoMemory>
    requires { OBJECT_PROTOTYPE < length heap.old.cells }
    ensures { OnOk result (heap.new ≡ with_more heap.old (host ∷ [])) }
{
    object(
        alloc,
        heap,
        Some(OBJECT_PROTOTYPE),
        &[
            (b"write", Member::Function(HostFn::Write)),
            (b"line", Member::Function(HostFn::Line)),
        ],
    )
}

// Makes a function.
fn make_function(heap: &mut ObjHeap, number: u32) -> Result<(), NoMemory>
    requires { FUNCTION_PROTOTYPE < length heap.old.cells }
    ensures made { OnOk result (heap.new ≡ with_new heap.old (new_cell (Host number) (Some FUNCTION_PROTOTYPE))) }
    ensures count { OnOk result (length heap.new.cells ≡ length heap.old.cells + 1) }
{
    match heap.create_as(Some(FUNCTION_PROTOTYPE), CellKind::Host(number)) {
        Ok(_) => Ok(()),
        Err(_) => Err(NoMemory),
    }
}

// Makes the functions, in the order of their numbers.
fn make_functions(heap: &mut ObjHeap) -> Result<(), NoMemory>
    requires { FUNCTION_PROTOTYPE < length heap.old.cells }
    ensures { OnOk result (heap.new ≡ with_more heap.old functions) }
{
    for number in 0..FUNCTION_COUNT {
        make_function(heap, number)?;
    }
    Ok(())
}

// Puts a global at the end.
fn bind(alloc: Global, list: &mut Globals, name: &[u8], value: EsValue) -> Result<(), NoMemory>
    ensures { OnOk result (list.new ≡ list.old ++ (name.now, value_of value) ∷ []) }
{
    list.push(word_units(alloc, name)?, value)
}

// The globals.
fn make_globals(alloc: Global) -> Result<Globals, NoMemory>
    ensures { IfOk result (λ list. list ≡ globals) }
{
    let mut list = Bindings::new(alloc);
    bind(alloc, &mut list, b"undefined", EsValue::Undefined)?;
    bind(alloc, &mut list, b"Object", EsValue::Obj(6))?;
    bind(alloc, &mut list, b"Function", EsValue::Obj(7))?;
    bind(alloc, &mut list, b"Array", EsValue::Obj(8))?;
    bind(alloc, &mut list, b"String", EsValue::Obj(9))?;
    bind(alloc, &mut list, b"Number", EsValue::Obj(10))?;
    bind(alloc, &mut list, b"Boolean", EsValue::Obj(11))?;
    bind(alloc, &mut list, b"$host", EsValue::Obj(12))?;
    Ok(list)
}

/// Makes the intrinsic objects in a new heap, which take the first `INTRINSICS` cells, and answers the
/// globals. Where no memory is found, nothing is said of the heap.
pub fn intrinsics(alloc: Global, heap: &mut ObjHeap) -> Result<Globals, NoMemory>
    requires new { heap.old.cells ≡ [] }
    requires room { INTRINSICS ≤ heap.old.capacity }
    ensures made { OnOk result (heap.new.cells ≡ cells) }
    ensures capacity { OnOk result (heap.new.capacity ≡ heap.old.capacity) }
    ensures globals { IfOk result (λ list. list ≡ globals) }
{
    make_prototypes(alloc, heap)?;
    make_constructors(alloc, heap)?;
    make_host(alloc, heap)?;
    make_functions(heap)?;
    make_globals(alloc)
}
