ghost use Rattle.std.specs.Prelude.{◌≡◌, ◌<◌, [], ◌∷◌, ◌++◌, length, slice_index, IfOk, OnOk, OnErr};

use crate::fault::NoMemory;
use std::alloc::Global;
use std::marker::Model;

/// A text as a list of 16-bit units in UTF-16, in which surrogates may stand alone.
#[derive(Drop)]
pub struct Units {
    items: Vec<u16>,
}

impl Model for Units {
    ghost use Rattle.std.specs.Prelude.{List, ℕ};

    ghost Value = { List ℕ };

    ghost view = { λ units. units.items.items };
}

impl Units {
    /// The empty text.
    pub fn new(alloc: Global) -> Units
        ensures { result ≡ [] }
    {
        Units {
            items: Vec::new(alloc),
        }
    }

    /// The text of these units.
    pub fn from_vec(items: Vec<u16>) -> Units
        ensures { result ≡ items.items }
    {
        Units { items }
    }

    /// The number of units.
    pub fn len(&self) -> usize
        ensures { result ≡ length self.now }
    {
        self.items.len()
    }

    /// The unit at an index from 0.
    pub fn at(&self, i: usize) -> u16
        requires { i < length self.now }
        ensures { result ≡ slice_index self.now i }
    {
        self.items[i]
    }

    /// Puts a unit at the end. Where no memory is found, nothing changes.
    pub fn push(&mut self, unit: u16) -> Result<(), NoMemory>
        ensures ok { OnOk result (self.new ≡ self.old ++ unit ∷ []) }
        ensures err { OnErr result (self.new ≡ self.old) }
    {
        match self.items.push(unit) {
            Ok(()) => Ok(()),
            Err(_) => Err(NoMemory),
        }
    }

    /// The units as a slice.
    pub fn as_slice(&self) -> &[u16]
        ensures { result.now ≡ self.now }
    {
        self.items.as_slice()
    }

    /// The same text again, or `NoMemory`.
    pub fn try_clone(&self) -> Result<Units, NoMemory>
        ensures { IfOk result (λ copy. copy ≡ self.now) }
    {
        match self.items.clone() {
            Ok(items) => Ok(Units { items }),
            Err(_) => Err(NoMemory),
        }
    }
}
