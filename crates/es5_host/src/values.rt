ghost use Rattle.std.specs.Prelude.{◌≡◌, ◌<◌, [], ◌∷◌, ◌++◌, length, slice_get, OnOk, OnErr, Some};
ghost use Rattle.es5_objects.specs.Values.{value_of};
ghost use Rattle.es5_host.specs.Items.{values};

use es5_objects::EsValue;
use opal_base::NoMemory;
use std::alloc::Global;
use std::marker::Model;

/// A list of values.
#[derive(Drop)]
pub struct EsValues {
    items: Vec<EsValue>,
}

impl Model for EsValues {
    ghost use Rattle.std.specs.Prelude.{List};
    ghost use Rattle.es5_tree.specs.Values.{Val};

    ghost Value = { List Val };

    ghost use Rattle.es5_host.specs.Items.{values};

    ghost view = { λ list. values list.items.items };
}

impl EsValues {
    /// No values.
    pub fn new(alloc: Global) -> EsValues
        ensures { result ≡ [] }
    {
        EsValues {
            items: Vec::new(alloc),
        }
    }

    /// The number of values.
    pub fn len(&self) -> usize
        ensures { result ≡ length self.now }
    {
        self.items.len()
    }

    /// The value at an index from 0.
    pub fn at(&self, i: usize) -> &EsValue
        requires { i < length self.now }
        ensures { slice_get self.now i ≡ Some (value_of result.now) }
    {
        &self.items[i]
    }

    /// Puts a value at the end. Where no memory is found, nothing changes, and the value is given up.
    pub fn push(&mut self, value: EsValue) -> Result<(), NoMemory>
        ensures ok { OnOk result (self.new ≡ self.old ++ value_of value ∷ []) }
        ensures err { OnErr result (self.new ≡ self.old) }
    {
        match self.items.push(value) {
            Ok(()) => Ok(()),
            Err(_) => Err(NoMemory),
        }
    }

    /// The values as a slice.
    pub fn as_slice(&self) -> &[EsValue]
        ensures { values result.now ≡ self.now }
    {
        &self.items
    }
}
