ghost use Rattle.std.specs.Prelude.{◌≡◌, [], length, map, OnOk, OnErr};
ghost use Rattle.std.specs.Option.{option_copied};
ghost use Rattle.es5_tree.specs.Values.{find_own};
ghost use Rattle.es5_tree.specs.Objects.Cells.{with_property, without_property, elements_below, stays_below};
ghost use Rattle.es5_tree.specs.Objects.Names.{index_of};
ghost use Rattle.es5_objects.specs.Values.{value_of, value_if};
ghost use Rattle.es5_objects.specs.Properties.{names};

use crate::index::index_of;
use crate::value::EsValue;
use indexmap::IndexMap;
use opal_base::{NoMemory, Units};
use std::alloc::Global;
use std::marker::Model;

/// Own properties in the order of making, looked up by the units of their names.
#[derive(Drop)]
pub struct Properties {
    items: IndexMap<Vec<u16>, EsValue>,
}

impl Model for Properties {
    ghost use Rattle.std.specs.Prelude.{List};
    ghost use Rattle.es5_tree.specs.Values.{Text, Val};

    ghost Value = { List (Text × Val) };

    ghost use Rattle.es5_objects.specs.Properties.{entries};

    ghost view = { λ properties. entries properties.items.entries };
}

// Whether a name is no index, or one below the end.
fn is_below(name: &[u16], end: u32) -> bool
    ensures { result ≡ stays_below end (index_of name.now) }
{
    match index_of(name) {
        Some(index) => index < end,
        None => true,
    }
}

impl Properties {
    /// No properties.
    pub fn new(alloc: Global) -> Properties
        ensures { result ≡ [] }
    {
        Properties {
            items: IndexMap::new(alloc),
        }
    }

    /// The number of properties.
    pub fn len(&self) -> usize
        ensures { result ≡ length self.now }
    {
        self.items.len()
    }

    /// The value of the property of this name.
    pub fn find(&self, name: &Units) -> Option<&EsValue>
        ensures { value_if (option_copied result) ≡ find_own self.now name.now }
    {
        self.items.get(name.as_slice())
    }

    /// Changes the value of a property in its place, or puts the property at the end. Where no memory
    /// is found, nothing changes.
    pub fn put(&mut self, name: Units, value: EsValue) -> Result<(), NoMemory>
        ensures ok { OnOk result (self.new ≡ with_property self.old name (value_of value)) }
        ensures err { OnErr result (self.new ≡ self.old) }
    {
        match self.items.get_index_of(name.as_slice()) {
            Some(place) => {
                self.items[place] = value;
                Ok(())
            }
            None => self.put_last(name, value),
        }
    }

    // Puts a property as `put` does, and takes memory for its name.
    fn put_last(&mut self, name: Units, value: EsValue) -> Result<(), NoMemory>
        ensures ok { OnOk result (self.new ≡ with_property self.old name (value_of value)) }
        ensures err { OnErr result (self.new ≡ self.old) }
    {
        let key = match Vec::from_slice(*self.items.allocator(), name.as_slice()) {
            Ok(key) => key,
            Err(_) => return Err(NoMemory),
        };
        match self.items.insert(key, value) {
            Ok(_) => Ok(()),
            Err(_) => Err(NoMemory),
        }
    }

    /// Takes the property of this name out.
    pub fn delete(&mut self, name: &Units)
        ensures { self.new ≡ without_property self.old name.now }
    {
        if let Some(place) = self.items.get_index_of(name.as_slice()) {
            self.items.shift_remove_index(place);
        }
    }

    /// Takes the elements from this index on out.
    pub fn keep_below(&mut self, end: u32)
        ensures { self.new ≡ elements_below end self.old }
    {
        self.items.retain(
            |name: &Vec<u16>, value: &mut EsValue| -> bool
                ensures { (result ≡ stays_below end (index_of name.now.items)) × (value.new ≡ value.old) }
            { is_below(name.as_slice(), end) },
        );
    }

    /// The units of the names, in the order of making.
    pub fn names(&self) -> &[Vec<u16>]
        ensures { names result.now ≡ map (λ p. p.0) self.now }
    {
        self.items.keys().as_slice()
    }
}
