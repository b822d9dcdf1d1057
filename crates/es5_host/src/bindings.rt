ghost use Rattle.std.specs.Prelude.{◌≡◌, ◌+◌, ◌<◌, ◌≤◌, [], ◌∷◌, ◌++◌, map, take, drop, bytes_eq, length, slice_get, IfSome, OnOk, OnErr, Some};
ghost use Rattle.std.specs.List.{position};
ghost use Rattle.std.specs.Option.{option_map};
ghost use Rattle.es5_objects.specs.Values.{value_of};
ghost use Rattle.es5_host.specs.Bindings.{bindings, few, place_of, value_at, with_value_at};

use es5_objects::EsValue;
use name_set::NameSet;
use opal_base::{NoMemory, Units};
use std::alloc::Global;
use std::marker::Model;

/// A name and its value.
#[derive(Drop)]
pub struct Binding {
    pub name: Units,
    pub value: EsValue,
}

// So many names are looked at one after the other.
const FEW: usize = 8;

/// Names and their values, in order: the globals, or the variables of an activation record
/// (ECMA-262 5.1, section 10.2.1.1).
#[derive(Drop)]
pub struct Bindings {
    items: Vec<Binding>,
    // The names past the first few, by which they are looked up.
    index: NameSet,
}

/// The names that stand before a script begins, with their values.
pub type Globals = Bindings;

impl Model for Bindings {
    ghost use Rattle.std.specs.Prelude.{◌≡◌, List, map, drop};
    ghost use Rattle.es5_tree.specs.Values.{Text, Val};

    ghost Value = { List (Text × Val) };

    ghost use Rattle.es5_host.specs.Bindings.{bindings, few};

    ghost view = { λ list. bindings list.items.items };

    ghost invariant = { λ list. list.index ≡ map (λ b. b.0) (drop few (bindings list.items.items)) };
}

// The first place of a name.
fn first_of(items: &[Binding], name: &[u16]) -> Option<usize>
    ensures { result ≡ position (λ b. bytes_eq b.name name.now) items.now }
{
    items
        .iter()
        .position(|binding| binding.name.as_slice() == name)
}

impl Bindings {
    /// No names.
    pub fn new(alloc: Global) -> Bindings
        ensures { result ≡ [] }
    {
        Bindings {
            items: Vec::new(alloc),
            index: NameSet::new(alloc),
        }
    }

    /// The number of names.
    pub fn len(&self) -> usize
        ensures { result ≡ length self.now }
    {
        self.items.len()
    }

    /// The name and the value at an index from 0.
    pub fn at(&self, i: usize) -> (&Units, &EsValue)
        requires { i < length self.now }
        ensures { slice_get self.now i ≡ Some (result.0.now, value_of result.1.now) }
    {
        let binding = &self.items[i];
        (&binding.name, &binding.value)
    }

    /// The value at an index from 0.
    pub fn value(&self, i: usize) -> &EsValue
        requires { i < length self.now }
        ensures { value_at self.now i ≡ Some (value_of result.now) }
    {
        &self.items[i].value
    }

    /// The first place of a name, from 0.
    pub fn find(&self, name: &Units) -> Option<usize>
        ensures place { result ≡ place_of self.now name.now }
        ensures within { IfSome result (λ i. i < length self.now) }
    {
        match first_of(self.first_few(), name.as_slice()) {
            Some(i) => Some(i),
            None => self.find_past(name.as_slice()),
        }
    }

    // The names that are looked at one after the other.
    fn first_few(&self) -> &[Binding]
        ensures { bindings result.now ≡ take few self.now }
    {
        &self.items[..self.items.len().min(FEW)]
    }

    // The first place of a name past the first few.
    fn find_past(&self, name: &[u16]) -> Option<usize>
        ensures { result ≡ option_map (λ i. i + few) (place_of (drop few self.now) name.now) }
    {
        match self.index.place(name) {
            Some(i) => Some(i + FEW),
            None => None,
        }
    }

    /// Puts a name with its value at the end. Where no memory is found, nothing changes, and both are
    /// given up. A name that stands past the first few already is answered so too.
    pub fn push(&mut self, name: Units, value: EsValue) -> Result<(), NoMemory>
        ensures ok { OnOk result (self.new ≡ self.old ++ (name, value_of value) ∷ []) }
        ensures err { OnErr result (self.new ≡ self.old) }
    {
        if self.items.len() < FEW {
            self.push_few(name, value)
        } else {
            self.push_past(name, value)
        }
    }

    // The name is one of the first few.
    fn push_few(&mut self, name: Units, value: EsValue) -> Result<(), NoMemory>
        requires { length self.old < few }
        ensures ok { OnOk result (self.new ≡ self.old ++ (name, value_of value) ∷ []) }
        ensures err { OnErr result (self.new ≡ self.old) }
    {
        match self.items.push(Binding { name, value }) {
            Ok(()) => Ok(()),
            Err(_) => Err(NoMemory),
        }
    }

    // The name stands past the first few.
    fn push_past(&mut self, name: Units, value: EsValue) -> Result<(), NoMemory>
        requires { few ≤ length self.old }
        ensures ok { OnOk result (self.new ≡ self.old ++ (name, value_of value) ∷ []) }
        ensures err { OnErr result (self.new ≡ self.old) }
    {
        if self.index.contains(name.as_slice()) {
            return Err(NoMemory);
        }
        match self.items.reserve(1) {
            Ok(()) => {}
            Err(_) => return Err(NoMemory),
        }
        self.index.insert(&name)?;
        match self.items.push(Binding { name, value }) {
            Ok(()) => Ok(()),
            Err(_) => Err(NoMemory),
        }
    }

    /// Changes the value at an index from 0. It takes no memory.
    pub fn set(&mut self, i: usize, value: EsValue)
        requires { i < length self.old }
        ensures { self.new ≡ with_value_at self.old i (value_of value) }
    {
        let binding = &mut self.items[i];
        binding.value = value;
    }
}
