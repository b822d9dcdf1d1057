ghost use Rattle.std.specs.Prelude.{◌≡◌, ◌<◌, [], ◌∷◌, ◌++◌, length, slice_get, OnOk, OnErr, Some};

use crate::fault::NoMemory;
use crate::units::Units;
use std::alloc::Global;
use std::marker::Model;

/// A list of names.
#[derive(Drop)]
pub struct Names {
    items: Vec<Units>,
}

impl Model for Names {
    ghost use Rattle.std.specs.Prelude.{List, ℕ};

    ghost Value = { List (List ℕ) };

    ghost view = { λ names. names.items.items };
}

impl Names {
    /// No names.
    pub fn new(alloc: Global) -> Names
        ensures { result ≡ [] }
    {
        Names {
            items: Vec::new(alloc),
        }
    }

    /// The number of names.
    pub fn len(&self) -> usize
        ensures { result ≡ length self.now }
    {
        self.items.len()
    }

    /// The name at an index from 0.
    pub fn at(&self, i: usize) -> &Units
        requires { i < length self.now }
        ensures { slice_get self.now i ≡ Some result.now }
    {
        &self.items[i]
    }

    /// Puts a name at the end. Where no memory is found, nothing changes, and the name is given up.
    pub fn push(&mut self, name: Units) -> Result<(), NoMemory>
        ensures ok { OnOk result (self.new ≡ self.old ++ name ∷ []) }
        ensures err { OnErr result (self.new ≡ self.old) }
    {
        match self.items.push(name) {
            Ok(()) => Ok(()),
            Err(_) => Err(NoMemory),
        }
    }
}
