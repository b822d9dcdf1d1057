ghost use Rattle.std.specs.Prelude.{◌≡◌, ◌<◌, pos, IfSome};
ghost use Rattle.es5_tree.specs.Values.{Num};
ghost use Rattle.es5_tree.specs.Objects.Names.{index_end};
ghost use Rattle.es5_tree.specs.Objects.Cells.{IsLength, whole, length_past};
ghost use Rattle.es5_objects.specs.Values.{value_of};

use crate::value::EsValue;
use es5_tree::SafeInt;
use std::marker::Model;

/// The `length` of an array: a whole number from 0 to 2^32-1, kept as a value.
#[derive(Drop)]
pub struct ArrayLength {
    value: EsValue,
}

impl Model for ArrayLength {
    ghost use Rattle.std.specs.Prelude.{ℕ};

    ghost Value = { ℕ };

    ghost use Rattle.es5_tree.specs.Objects.Cells.{IsLength, whole};
    ghost use Rattle.es5_objects.specs.Values.{value_of};

    ghost view = { λ length. whole (value_of length.value) };

    ghost invariant = { λ length. IsLength (value_of length.value) };
}

impl ArrayLength {
    /// The `length` of an array without elements.
    pub fn zero() -> ArrayLength
        ensures { result ≡ 0 }
    {
        ArrayLength {
            value: EsValue::Num(SafeInt::from_u32(0)),
        }
    }

    /// The `length` that a value is.
    pub fn from_value(value: EsValue) -> ArrayLength
        requires { IsLength (value_of value) }
        ensures { result ≡ whole (value_of value) }
    {
        ArrayLength { value }
    }

    /// It as a value.
    pub fn as_value(&self) -> &EsValue
        ensures { value_of result.now ≡ Num (pos self.now) }
    {
        &self.value
    }

    /// It as a number.
    pub fn get(&self) -> u32
        ensures { result ≡ self.now }
    {
        match &self.value {
            EsValue::Num(number) => number.value() as u32,
            _ => 0,
        }
    }

    /// Raises it above an index that was written.
    pub fn raise(&mut self, index: Option<u32>)
        requires { IfSome index (λ i. i < index_end) }
        ensures { self.new ≡ length_past self.old index }
    {
        if let Some(index) = index {
            if self.get() <= index {
                self.value = EsValue::Num(SafeInt::from_u32(index + 1));
            }
        }
    }
}
