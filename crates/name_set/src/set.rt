ghost use Rattle.std.specs.Prelude.{◌≡◌, [], ◌∷◌, ◌++◌, List, ℕ, not, bytes_eq, IfOk, OnOk, OnErr};
ghost use Rattle.std.specs.List.{position};
ghost use Rattle.name_set.specs.Names.{has, with_new};

use indexmap::IndexSet;
use opal_base::{Names, NoMemory, Units};
use std::alloc::Global;
use std::marker::Model;

/// Names in the order in which they came, each once. One is found in constant time.
#[derive(Drop)]
pub struct NameSet {
    index: IndexSet<Vec<u16>>,
}

impl Model for NameSet {
    ghost use Rattle.std.specs.Prelude.{List, ℕ};
    ghost use Rattle.name_set.specs.Names.{names};

    ghost Value = { List (List ℕ) };

    ghost view = { λ set. names set.index.keys };
}

impl NameSet {
    /// No names.
    pub fn new(alloc: Global) -> NameSet
        ensures { result ≡ [] }
    {
        NameSet {
            index: IndexSet::new(alloc),
        }
    }

    /// The names of a list.
    pub fn of(alloc: Global, names: &Names) -> Result<NameSet, NoMemory>
        ensures { IfOk result (λ set. (x : List ℕ) → has set x ≡ has names.now x) }
    {
        let mut set = NameSet::new(alloc);
        for i in 0..names.len() {
            set.insert(names.at(i))?;
        }
        Ok(set)
    }

    /// Whether a name is among them.
    pub fn contains(&self, name: &[u16]) -> bool
        ensures { result ≡ has self.now name.now }
    {
        self.index.contains(name)
    }

    /// The place of a name among them, from 0.
    pub fn place(&self, name: &[u16]) -> Option<usize>
        ensures { result ≡ position (bytes_eq name.now) self.now }
    {
        self.index.get_index_of(name)
    }

    /// Puts a name at the end, unless it is among them, and tells whether it was put.
    pub fn insert(&mut self, name: &Units) -> Result<bool, NoMemory>
        ensures new { IfOk result (λ new. new ≡ not (has self.old name.now)) }
        ensures names { OnOk result (self.new ≡ with_new self.old name.now self.old) }
        ensures unchanged { OnErr result (self.new ≡ self.old) }
    {
        let key = match Vec::from_slice(*self.index.allocator(), name.as_slice()) {
            Ok(key) => key,
            Err(_) => return Err(NoMemory),
        };
        let new = match self.index.insert(key) {
            Ok(new) => new,
            Err(_) => return Err(NoMemory),
        };
        Ok(new)
    }

    /// The names as a list.
    pub fn to_names(&self, alloc: Global) -> Result<Names, NoMemory>
        ensures { IfOk result (λ names. names ≡ self.now) }
    {
        let mut names = Names::new(alloc);
        for key in self.index.as_slice() {
            push_copy(alloc, &mut names, key.as_slice())?;
        }
        Ok(names)
    }
}

// Puts a copy of a name at the end.
fn push_copy(alloc: Global, names: &mut Names, name: &[u16]) -> Result<(), NoMemory>
    ensures { OnOk result (names.new ≡ names.old ++ name.now ∷ []) }
{
    match Vec::from_slice(alloc, name) {
        Ok(units) => names.push(Units::from_vec(units)),
        Err(_) => Err(NoMemory),
    }
}
