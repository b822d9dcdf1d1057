ghost use Rattle.std.specs.Prelude.{◌≡◌, ◌++◌, length, IfOk, OnOk, OnErr, is_some, false};
ghost use Rattle.std.specs.Option.{option_copied};
ghost use Rattle.es5_tree.specs.Objects.Cells.{own, put, delete, indices, keys, new_cell, is_array_length, CanPut, IsLength, whole, with_length, with_value};
ghost use Rattle.es5_tree.specs.Objects.Links.{with_link};
ghost use Rattle.es5_objects.specs.Values.{value_of, value_if, kind_of};

use crate::index::{index_of, is_length};
use crate::keys::{keys_of, push_indices_of};
use crate::kind::CellKind;
use crate::length::ArrayLength;
use crate::properties::Properties;
use crate::value::EsValue;
use opal_base::{Names, NoMemory, Units};
use std::alloc::Global;
use std::marker::Model;

/// An object: its kind, its link, the `length` of an array, and its other own properties.
#[derive(Drop)]
pub struct ObjectCell {
    kind: CellKind,
    link: Option<u32>,
    length: ArrayLength,
    properties: Properties,
}

impl Model for ObjectCell {
    ghost use Rattle.es5_tree.specs.Objects.Cells.{Cell};

    ghost Value = { Cell };

    ghost use Rattle.es5_objects.specs.Values.{kind_of};

    ghost view = { λ cell. record { kind = kind_of cell.kind; link = cell.link; array_length = cell.length; properties = cell.properties } };
}

impl ObjectCell {
    /// A cell as it is made. It takes no memory.
    pub fn new(alloc: Global, kind: CellKind, link: Option<u32>) -> ObjectCell
        ensures { result ≡ new_cell (kind_of kind) link }
    {
        ObjectCell {
            kind,
            link,
            length: ArrayLength::zero(),
            properties: Properties::new(alloc),
        }
    }

    /// The kind.
    pub fn kind(&self) -> CellKind
        ensures { kind_of result ≡ self.now.kind }
    {
        self.kind
    }

    /// The link.
    pub fn link(&self) -> Option<u32>
        ensures { result ≡ self.now.link }
    {
        self.link
    }

    /// Changes the link.
    pub fn set_link(&mut self, link: Option<u32>)
        ensures { self.new ≡ with_link self.old link }
    {
        self.link = link;
    }

    // Whether a name is that of an array's `length`.
    fn is_array_length(&self, name: &Units) -> bool
        ensures { result ≡ is_array_length self.now name.now }
    {
        self.kind.is_array() && is_length(name)
    }

    /// The value of an own property.
    #[tactic(auto, unfolding(es5_tree::specs::Objects::Cells::own))]
    pub fn own(&self, name: &Units) -> Option<&EsValue>
        ensures { value_if (option_copied result) ≡ own self.now name.now }
    {
        if self.is_array_length(name) {
            Some(self.length.as_value())
        } else {
            self.properties.find(name)
        }
    }

    // Gives an array another `length`.
    #[tactic(auto, unfolding(es5_tree::specs::Objects::Cells::with_length))]
    fn set_length(&mut self, value: EsValue)
        requires { IsLength (value_of value) }
        ensures { self.new ≡ with_length self.old (whole (value_of value)) }
    {
        let length = ArrayLength::from_value(value);
        self.properties.keep_below(length.get());
        self.length = length;
    }

    // Makes or changes a property that isn't the `length` of an array.
    #[tactic(auto, unfolding(es5_tree::specs::Objects::Cells::with_value))]
    fn set_value(&mut self, name: Units, value: EsValue) -> Result<(), NoMemory>
        ensures ok { OnOk result (self.new ≡ with_value self.old name (value_of value)) }
        ensures err { OnErr result (self.new ≡ self.old) }
    {
        let index = index_of(name.as_slice());
        self.properties.put(name, value)?;
        if self.kind.is_array() {
            self.length.raise(index);
        }
        Ok(())
    }

    /// Makes or changes an own property. Where no memory is found, nothing changes.
    #[tactic(auto, unfolding(es5_tree::specs::Objects::Cells::put))]
    pub fn put(&mut self, name: Units, value: EsValue) -> Result<(), NoMemory>
        requires { CanPut self.old name (value_of value) }
        ensures ok { OnOk result (self.new ≡ put self.old name (value_of value)) }
        ensures err { OnErr result (self.new ≡ self.old) }
    {
        if self.is_array_length(&name) {
            self.set_length(value);
            Ok(())
        } else {
            self.set_value(name, value)
        }
    }

    /// Deletes an own property, and tells whether it was there.
    #[tactic(auto, unfolding(es5_tree::specs::Objects::Cells::own, es5_tree::specs::Objects::Cells::delete))]
    pub fn delete(&mut self, name: &Units) -> bool
        requires { is_array_length self.old name.now ≡ false }
        ensures there { result ≡ is_some (own self.old name.now) }
        ensures after { self.new ≡ delete self.old name.now }
    {
        let there = self.own(name).is_some();
        self.properties.delete(name);
        there
    }

    /// The names that `Object.keys` lists, in its order.
    #[tactic(auto, unfolding(es5_tree::specs::Objects::Cells::keys))]
    pub fn keys(&self, alloc: Global) -> Result<Names, NoMemory>
        ensures { IfOk result (λ names. names ≡ keys self.now) }
    {
        keys_of(alloc, self.kind, self.properties.names())
    }

    /// The number of the own properties, without the `length` of an array.
    pub fn len(&self) -> usize
        ensures { result ≡ length self.now.properties }
    {
        self.properties.len()
    }

    /// Puts the array indices among the names at the end, in the order of making.
    pub fn push_indices(&self, found: &mut Vec<u32>) -> Result<(), NoMemory>
        ensures { OnOk result (found.new.items ≡ found.old.items ++ indices self.now.properties) }
    {
        push_indices_of(found, self.properties.names())
    }
}
