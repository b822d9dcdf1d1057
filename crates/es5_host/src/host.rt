//! The functions of `$host`, the profile's own.

ghost use Rattle.std.specs.Prelude.{◌≡◌, ◌≤◌, [], length, IfOk};
ghost use Rattle.es5_tree.specs.Intrinsics.Lines.{line_of, line_value, rest};
ghost use Rattle.es5_tree.specs.Intrinsics.Rows.{Writes, covered, line, one_of, write};
ghost use Rattle.es5_objects.specs.Heap.{Heap};
ghost use Rattle.es5_objects.specs.Values.{value_of};
ghost use Rattle.es5_host.specs.Answers.{Answered, Caused, HasRead, ReadUnits, Took, TookText};

use crate::answer::{HostAnswer, OutKind};
use crate::argument::{one_of, text_of};
use crate::lines::Lines;
use crate::values::EsValues;
use es5_objects::{EsText, EsValue};
use opal_base::{NoMemory, Sink, Units, units_to_utf8, write_all};
use std::alloc::Global;

// Writes a text.
fn write_text<S: Sink>(alloc: Global, text: &Units, sink: &mut S) -> HostAnswer
    ensures answer { (h : Heap) → Answered (Writes text.now) result h h }
    ensures took { TookText text.now result (S.told sink.old) (S.told sink.new) }
    ensures later { S.faults sink.old ≤ S.faults sink.new }
    ensures cause { Caused result (S.faults sink.old) (S.faults sink.new) }
{
    let bytes = match units_to_utf8(alloc, text) {
        Ok(bytes) => bytes,
        Err(_) => return HostAnswer::NoMemory,
    };
    match write_all(sink, bytes.as_slice()) {
        Ok(()) => HostAnswer::Value(EsValue::Undefined),
        Err(_) => HostAnswer::WriteFault,
    }
}

// Writes a value.
fn write_value<S: Sink>(alloc: Global, v: &EsValue, sink: &mut S) -> HostAnswer
    ensures answer { (h : Heap) → Answered (write (value_of v.now)) result h h }
    ensures took { Took (write (value_of v.now)) result (S.told sink.old) (S.told sink.new) }
    ensures later { S.faults sink.old ≤ S.faults sink.new }
    ensures cause { Caused result (S.faults sink.old) (S.faults sink.new) }
{
    match text_of(v) {
        None => HostAnswer::Outside(OutKind::Host),
        Some(text) => write_text(alloc, text.units(), sink),
    }
}

/// `$host.write`: writes a text as UTF-8.
pub fn write<S: Sink>(alloc: Global, args: &EsValues, sink: &mut S) -> HostAnswer
    ensures answer { (h : Heap) → Answered (covered (one_of args.now) write) result h h }
    ensures took { Took (covered (one_of args.now) write) result (S.told sink.old) (S.told sink.new) }
    ensures later { S.faults sink.old ≤ S.faults sink.new }
    ensures cause { Caused result (S.faults sink.old) (S.faults sink.new) }
{
    match one_of(args) {
        None => HostAnswer::Outside(OutKind::Host),
        Some(v) => write_value(alloc, v, sink),
    }
}

// A line as a value, null at the end of the input.
fn line_value(alloc: Global, line: Units) -> Result<EsValue, NoMemory>
    ensures { IfOk result (λ value. value_of value ≡ line_value line) }
{
    if line.as_slice().is_empty() {
        Ok(EsValue::Null)
    } else {
        Ok(EsValue::Str(EsText::new(alloc, line)?))
    }
}

// The next line.
fn read_line(alloc: Global, lines: &mut Lines) -> HostAnswer
    ensures answer { (h : Heap) → Answered (line lines.old []) result h h }
    ensures read { ReadUnits (length (line_of (rest lines.old))) result lines.old lines.new }
{
    let next = match lines.next_line(alloc) {
        Ok(next) => next,
        Err(_) => return HostAnswer::NoMemory,
    };
    match line_value(alloc, next) {
        Ok(value) => HostAnswer::Value(value),
        Err(_) => HostAnswer::NoMemory,
    }
}

/// `$host.line`: the next line of the input with its newline where it has one, null at the end.
pub fn line(alloc: Global, lines: &mut Lines, args: &EsValues) -> HostAnswer
    ensures answer { (h : Heap) → Answered (line lines.old args.now) result h h }
    ensures read { HasRead (line lines.old args.now) result lines.old lines.new }
{
    match args.as_slice() {
        [] => read_line(alloc, lines),
        _ => HostAnswer::Outside(OutKind::Host),
    }
}
