//! Keys, and the properties of primitives (ECMA-262 5.1, sections 8.7.1, 9.8 and 15.5.5).

ghost use Rattle.std.specs.Prelude.{◌≡◌, IfOk, length, pos};
ghost use Rattle.es5_tree.specs.Values.{Num};
ghost use Rattle.es5_evaluation.specs.Values.{holder_of, key_of, own_of_primitive, unit_at};
ghost use Rattle.es5_objects.specs.Values.{value_of, value_if};

use crate::text::numeral;
use es5_objects::{EsText, EsValue, index_of, is_length};
use es5_tree::SafeInt;
use opal_base::{NoMemory, Units};
use std::alloc::Global;

/// `String.prototype`, `Number.prototype` and `Boolean.prototype`.
const TEXT_PROTOTYPE: u32 = 3;

const NUMBER_PROTOTYPE: u32 = 4;

const TRUTH_PROTOTYPE: u32 = 5;

/// The object from which a value has its properties: an object from itself, a primitive from its
/// prototype object; undefined and null have none.
pub fn holder_of(v: &EsValue) -> Option<u32>
    ensures { result ≡ holder_of (value_of v.now) }
{
    match v {
        EsValue::Undefined => None,
        EsValue::Null => None,
        EsValue::Bool(_) => Some(TRUTH_PROTOTYPE),
        EsValue::Num(_) => Some(NUMBER_PROTOTYPE),
        EsValue::Str(_) => Some(TEXT_PROTOTYPE),
        EsValue::Obj(o) => Some(*o),
    }
}

/// The name of a property that a value is: a text, or the digits of a number; `None` where it is no
/// key of the profile.
pub fn key_of(alloc: Global, v: &EsValue) -> Result<Option<EsText>, NoMemory>
    ensures { IfOk result (λ key. key ≡ key_of (value_of v.now)) }
{
    match v {
        EsValue::Num(n) => Ok(Some(EsText::new(alloc, numeral(alloc, *n)?)?)),
        EsValue::Str(text) => Ok(Some(text.share()?)),
        _ => Ok(None),
    }
}

// The unit of a text at an index, as a text.
fn unit_at(alloc: Global, text: &Units, index: Option<u32>) -> Result<Option<EsValue>, NoMemory>
    ensures { IfOk result (λ unit. value_if unit ≡ unit_at text.now index) }
{
    match index {
        Some(i) if (i as usize) < text.len() => {
            let mut unit = Units::new(alloc);
            unit.push(text.at(i as usize))?;
            Ok(Some(EsValue::Str(EsText::new(alloc, unit)?)))
        }
        _ => Ok(None),
    }
}

// The length of a text, which no text in memory has beyond 2^53-1.
fn length_of(text: &Units) -> Result<EsValue, NoMemory>
    ensures { IfOk result (λ v. value_of v ≡ Num (pos (length text.now))) }
{
    let length = text.len() as u64;
    if length > SafeInt::MAX as u64 {
        return Err(NoMemory);
    }
    Ok(EsValue::Num(SafeInt::from_u64(length)))
}

/// An own property of a primitive: the `length` or a unit of a text (15.5.5). Others have none.
pub fn own_of_primitive(
    alloc: Global,
    v: &EsValue,
    name: &Units,
) -> Result<Option<EsValue>, NoMemory>
    ensures { IfOk result (λ own. value_if own ≡ own_of_primitive (value_of v.now) name.now) }
{
    match v {
        EsValue::Str(text) => {
            if is_length(name) {
                Ok(Some(length_of(text.units())?))
            } else {
                unit_at(alloc, text.units(), index_of(name.as_slice()))
            }
        }
        _ => Ok(None),
    }
}
