//! The functions of texts (ECMA-262 5.1, sections 15.5.3 and 15.5.4).

ghost use Rattle.std.specs.Prelude.{◌≡◌, ◌+◌, ◌≤◌, ◌&&◌, nat_lt, nat_le, nat_eq, pos, [], ◌∷◌, drop, length, slice_index, slice_range, IfOk};
ghost use Rattle.std.specs.List.{starts_with};
ghost use Rattle.es5_tree.specs.Values.{Num, Str};
ghost use Rattle.es5_tree.specs.Intrinsics.Rows.{Gives, char_code_at, covered, first_place, from_char_code, index_of, one_of, place_value, substring, two_of, where_true};
ghost use Rattle.es5_objects.specs.Heap.{Heap};
ghost use Rattle.es5_objects.specs.Values.{value_of};
ghost use Rattle.es5_host.specs.Answers.{Answered};

use crate::answer::{HostAnswer, not_covered};
use crate::argument::{natural_of, one_of, text_of, two_of};
use crate::lines::{copy, rest_of};
use crate::values::EsValues;
use es5_objects::{EsText, EsValue};
use es5_tree::SafeInt;
use opal_base::{NoMemory, Units};
use std::alloc::Global;

// The unit at an index as a number.
fn unit_at(text: &Units, i: u64) -> HostAnswer
    ensures { (h : Heap) → Answered (where_true (nat_lt i (length text.now)) (Gives (Num (pos (slice_index text.now i))))) result h h }
{
    if i < text.len() as u64 {
        let unit = text.at(i as usize);
        HostAnswer::Value(EsValue::Num(SafeInt::from_u32(u32::from(unit))))
    } else {
        not_covered()
    }
}

// The unit of a value at a value.
fn unit_of(this: &EsValue, v: &EsValue) -> HostAnswer
    ensures { (h : Heap) → Answered (char_code_at (value_of this.now) (value_of v.now)) result h h }
{
    match text_of(this) {
        None => not_covered(),
        Some(text) => match natural_of(v) {
            None => not_covered(),
            Some(i) => unit_at(text.units(), i),
        },
    }
}

/// `String.prototype.charCodeAt` (15.5.4.5).
pub fn char_code_at(this: &EsValue, args: &EsValues) -> HostAnswer
    ensures { (h : Heap) → Answered (covered (one_of args.now) (char_code_at (value_of this.now))) result h h }
{
    match one_of(args) {
        None => not_covered(),
        Some(v) => unit_of(this, v),
    }
}

// The text of these units.
fn text_value(alloc: Global, units: &[u16]) -> Result<EsValue, NoMemory>
    ensures { IfOk result (λ value. value_of value ≡ Str units.now) }
{
    let units = copy(alloc, units)?;
    Ok(EsValue::Str(EsText::new(alloc, units)?))
}

// The units from one index up to another.
fn part(alloc: Global, text: &Units, i: u64, j: u64) -> HostAnswer
    ensures { (h : Heap) → Answered (where_true (nat_le i j && nat_le j (length text.now)) (Gives (Str (slice_range text.now i j)))) result h h }
{
    if !(i <= j && j <= text.len() as u64) {
        return not_covered();
    }
    match text_value(alloc, &text.as_slice()[i as usize..j as usize]) {
        Ok(value) => HostAnswer::Value(value),
        Err(_) => HostAnswer::NoMemory,
    }
}

// The part of a value between two values.
fn part_of(alloc: Global, this: &EsValue, v: &EsValue, w: &EsValue) -> HostAnswer
    ensures { (h : Heap) → Answered (substring (value_of this.now) (value_of v.now) (value_of w.now)) result h h }
{
    match text_of(this) {
        None => not_covered(),
        Some(text) => match natural_of(v) {
            None => not_covered(),
            Some(i) => match natural_of(w) {
                None => not_covered(),
                Some(j) => part(alloc, text.units(), i, j),
            },
        },
    }
}

/// `String.prototype.substring` (15.5.4.15).
pub fn substring(alloc: Global, this: &EsValue, args: &EsValues) -> HostAnswer
    ensures { (h : Heap) → Answered (covered (two_of args.now) (λ vs. substring (value_of this.now) vs.0 vs.1)) result h h }
{
    match two_of(args) {
        None => not_covered(),
        Some((v, w)) => part_of(alloc, this, v, w),
    }
}

// The text of one unit.
fn unit_text(alloc: Global, i: u64) -> HostAnswer
    ensures { (h : Heap) → Answered (where_true (nat_le i 65535) (Gives (Str (i ∷ [])))) result h h }
{
    if i > 65535 {
        return not_covered();
    }
    let unit = [i as u16];
    match text_value(alloc, &unit) {
        Ok(value) => HostAnswer::Value(value),
        Err(_) => HostAnswer::NoMemory,
    }
}

// The text of the unit that a value is.
fn text_from(alloc: Global, v: &EsValue) -> HostAnswer
    ensures { (h : Heap) → Answered (from_char_code (value_of v.now)) result h h }
{
    match natural_of(v) {
        None => not_covered(),
        Some(i) => unit_text(alloc, i),
    }
}

/// `String.fromCharCode` of one unit (15.5.3.2).
pub fn from_char_code(alloc: Global, args: &EsValues) -> HostAnswer
    ensures { (h : Heap) → Answered (covered (one_of args.now) from_char_code) result h h }
{
    match one_of(args) {
        None => not_covered(),
        Some(v) => text_from(alloc, v),
    }
}

// The first place from an index on at which a text has these units.
fn first_place(text: &[u16], part: &[u16], from: usize) -> Option<usize>
    requires { from ≤ length text.now }
    ensures { result ≡ first_place part.now from (drop from text.now) }
{
    for at in from..text.len() {
        if rest_of(text, at).starts_with(part) {
            return Some(at);
        }
    }
    if part.len() == 0 {
        Some(text.len())
    } else {
        None
    }
}

// A place as a value, -1 for none. No text in memory is longer than numbers reach.
fn place_value(place: Option<usize>) -> Result<EsValue, NoMemory>
    ensures { IfOk result (λ value. value_of value ≡ place_value place) }
{
    let number = match place {
        None => -1,
        Some(at) => match i64::try_from(at) {
            Ok(at) => at,
            Err(_) => return Err(NoMemory),
        },
    };
    match SafeInt::new(number) {
        Some(number) => Ok(EsValue::Num(number)),
        None => Err(NoMemory),
    }
}

// The first place of a part in a text from an index on.
fn place_from(text: &Units, part: &Units, i: u64) -> HostAnswer
    ensures { (h : Heap) → Answered (where_true (nat_le i (length text.now)) (Gives (place_value (first_place part.now i (drop i text.now))))) result h h }
{
    if i > text.len() as u64 {
        return not_covered();
    }
    match place_value(first_place(text.as_slice(), part.as_slice(), i as usize)) {
        Ok(value) => HostAnswer::Value(value),
        Err(_) => HostAnswer::NoMemory,
    }
}

// The first place of a value in a value from a value on.
fn place_of(this: &EsValue, v: &EsValue, w: &EsValue) -> HostAnswer
    ensures { (h : Heap) → Answered (index_of (value_of this.now) (value_of v.now) (value_of w.now)) result h h }
{
    match text_of(this) {
        None => not_covered(),
        Some(text) => match text_of(v) {
            None => not_covered(),
            Some(part) => match natural_of(w) {
                None => not_covered(),
                Some(i) => place_from(text.units(), part.units(), i),
            },
        },
    }
}

/// `String.prototype.indexOf` (15.5.4.7).
pub fn index_of(this: &EsValue, args: &EsValues) -> HostAnswer
    ensures { (h : Heap) → Answered (covered (two_of args.now) (λ vs. index_of (value_of this.now) vs.0 vs.1)) result h h }
{
    match two_of(args) {
        None => not_covered(),
        Some((v, w)) => place_of(this, v, w),
    }
}
