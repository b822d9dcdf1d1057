//! Arguments, and what kind of value they are.

ghost use Rattle.std.specs.Prelude.{◌≡◌};
ghost use Rattle.std.specs.Option.{option_copied, option_map};
ghost use Rattle.es5_tree.specs.Intrinsics.Rows.{one_of, two_of, link_of, object_of, text_of, natural_of, link_value};
ghost use Rattle.es5_objects.specs.Values.{value_of, value_if};

use crate::values::EsValues;
use es5_objects::{EsText, EsValue};

/// The one argument, where there is just one.
pub fn one_of(args: &EsValues) -> Option<&EsValue>
    ensures { value_if (option_copied result) ≡ one_of args.now }
{
    match args.as_slice() {
        [v] => Some(v),
        _ => None,
    }
}

/// The object that a value is.
pub fn object_of(value: &EsValue) -> Option<u32>
    ensures { result ≡ object_of (value_of value.now) }
{
    match value {
        EsValue::Obj(o) => Some(*o),
        _ => None,
    }
}

/// The text that a value is.
pub fn text_of(value: &EsValue) -> Option<&EsText>
    ensures { option_copied result ≡ text_of (value_of value.now) }
{
    match value {
        EsValue::Str(text) => Some(text),
        _ => None,
    }
}

/// The link that a value is: an object or null.
pub fn link_of(value: &EsValue) -> Option<Option<u32>>
    ensures { result ≡ link_of (value_of value.now) }
{
    match value {
        EsValue::Null => Some(None),
        EsValue::Obj(o) => Some(Some(*o)),
        _ => None,
    }
}

/// A link as a value.
pub fn link_value(link: Option<u32>) -> EsValue
    ensures { value_of result ≡ link_value link }
{
    match link {
        None => EsValue::Null,
        Some(o) => EsValue::Obj(o),
    }
}

/// The two arguments, where there are just two.
pub fn two_of(args: &EsValues) -> Option<(&EsValue, &EsValue)>
    ensures { option_map (λ p. (value_of p.0.now, value_of p.1.now)) result ≡ two_of args.now }
{
    match args.as_slice() {
        [v, w] => Some((v, w)),
        _ => None,
    }
}

/// The number from 0 on that a value is.
pub fn natural_of(value: &EsValue) -> Option<u64>
    ensures { result ≡ natural_of (value_of value.now) }
{
    match value {
        EsValue::Num(n) => {
            let number = n.value();
            if 0 <= number {
                Some(number as u64)
            } else {
                None
            }
        }
        _ => None,
    }
}
