//! Values and answers as they are shown.

use es5_host::{EsValues, HostAnswer};
use es5_objects::EsValue;
use opal_base::{Bytes, NoMemory, Units, units_to_utf8};
use std::alloc::Global;

pub fn show(out: &mut Bytes, text: &str) -> Result<(), NoMemory> {
    out.extend(text.as_bytes())
}

pub fn show_number(alloc: Global, out: &mut Bytes, number: i64) -> Result<(), NoMemory> {
    match format!(in alloc; "{number}") {
        Ok(text) => show(out, text.as_str()),
        Err(_) => Err(NoMemory),
    }
}

pub fn show_count(alloc: Global, out: &mut Bytes, count: usize) -> Result<(), NoMemory> {
    match format!(in alloc; "{count}") {
        Ok(text) => show(out, text.as_str()),
        Err(_) => Err(NoMemory),
    }
}

pub fn show_units(alloc: Global, out: &mut Bytes, text: &Units) -> Result<(), NoMemory> {
    let bytes = units_to_utf8(alloc, text)?;
    out.extend(bytes.as_slice())
}

/// An object as `@` and its number.
pub fn show_object(alloc: Global, out: &mut Bytes, o: u32) -> Result<(), NoMemory> {
    show(out, "@")?;
    show_number(alloc, out, i64::from(o))
}

pub fn show_value(alloc: Global, out: &mut Bytes, value: &EsValue) -> Result<(), NoMemory> {
    match value {
        EsValue::Undefined => show(out, "undefined"),
        EsValue::Null => show(out, "null"),
        EsValue::Bool(true) => show(out, "true"),
        EsValue::Bool(false) => show(out, "false"),
        EsValue::Num(number) => show_number(alloc, out, number.value()),
        EsValue::Str(text) => {
            show(out, "'")?;
            show_units(alloc, out, text.units())?;
            show(out, "'")
        }
        EsValue::Obj(o) => show_object(alloc, out, *o),
    }
}

// A call of a function: its number, `this`, and the arguments.
fn show_call(
    alloc: Global,
    out: &mut Bytes,
    callee: u32,
    this: &EsValue,
    args: &EsValues,
) -> Result<(), NoMemory> {
    show(out, "call ")?;
    show_object(alloc, out, callee)?;
    show(out, " ")?;
    show_value(alloc, out, this)?;
    for value in args.as_slice() {
        show(out, " ")?;
        show_value(alloc, out, value)?;
    }
    Ok(())
}

pub fn show_answer(alloc: Global, out: &mut Bytes, answer: &HostAnswer) -> Result<(), NoMemory> {
    match answer {
        HostAnswer::Value(value) => show_value(alloc, out, value),
        HostAnswer::Throw { name, message } => {
            show_units(alloc, out, name)?;
            show(out, ": ")?;
            show_units(alloc, out, message)
        }
        HostAnswer::Invoke { callee, this, args } => show_call(alloc, out, *callee, this, args),
        HostAnswer::Outside(_) => show(out, "outside"),
        HostAnswer::CellsFull => show(out, "full"),
        HostAnswer::WriteFault => show(out, "write fault"),
        HostAnswer::NoMemory => Err(NoMemory),
    }
}
