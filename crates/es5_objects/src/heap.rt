ghost use Rattle.std.specs.Prelude.{◌≡◌, ◌≤◌, ◌<◌, ℕ, nat_lt, nat_eq, Some, None, ◌↔◌, [], ◌∷◌, ◌++◌, length, IfOk, OnOk, OnErr, IsErr, is_err, is_some, false};
ghost use Rattle.std.specs.Option.{option_copied};
ghost use Rattle.es5_tree.specs.Objects.Cells.{new_cell, Object, own, put, delete, keys, rising, is_array_length, CanPut};
ghost use Rattle.std.specs.List.{list_any};
ghost use Rattle.es5_tree.specs.Objects.Names.{decimal, index_end};
ghost use Rattle.es5_objects.specs.Along.{indices_along, count_along};
ghost use Rattle.es5_tree.specs.Objects.Links.{cell_at, link_at, chain, get, in_chain, with_link, Within, LinksWithin, NoCycle};
ghost use Rattle.es5_objects.specs.Values.{value_of, value_if, kind_of};
ghost use Rattle.es5_objects.specs.Heap.{with_cell};

use crate::cell::ObjectCell;
use crate::keys::sorted;
use crate::kind::CellKind;
use crate::value::EsValue;
use opal_base::{Names, NoMemory, Units};
use std::alloc::Global;
use std::marker::Model;

/// No cell is left.
#[derive(Clone, Copy, Debug, PartialEq, Eq)]
pub struct Full;

/// The link would make a cycle.
#[derive(Clone, Copy, Debug, PartialEq, Eq)]
pub struct Cycle;

/// The objects of a run, by their numbers from 0, in cells that are reserved from the start. Links
/// lead to cells and make no cycle.
#[derive(Drop)]
pub struct ObjHeap {
    alloc: Global,
    cells: Vec<ObjectCell>,
    capacity: u32,
}

impl Model for ObjHeap {
    ghost use Rattle.es5_objects.specs.Heap.{Heap};
    ghost use Rattle.std.specs.Prelude.{◌≤◌, ◌<◌, ◌^◌, length, vec_capacity};
    ghost use Rattle.es5_tree.specs.Objects.Links.{LinksWithin, NoCycle};

    ghost Value = { Heap };

    ghost view = { λ heap. record { cells = heap.cells.items; capacity = heap.capacity } };

    ghost invariant = { λ heap. record {
      small : heap.capacity < 2 ^ 32;
      room : heap.capacity ≤ vec_capacity heap.cells;
      within : length heap.cells.items ≤ heap.capacity;
      links : LinksWithin heap.cells.items;
      no_cycle : NoCycle heap.cells.items;
    } };
}

// The value of a property of an object or of the first along its links that has one.
fn find<'a>(cells: &'a [ObjectCell], o: u32, name: &Units) -> Option<&'a EsValue>
    requires object { o < length cells.now }
    requires links { LinksWithin cells.now }
    ensures { value_if (option_copied result) ≡ get cells.now o name.now }
{
    let mut at = o;
    for turn in 0..cells.len() {
        let cell = &cells[at as usize];
        if let Some(value) = cell.own(name) {
            return Some(value);
        }
        match cell.link() {
            Some(next) => at = next,
            None => return None,
        }
    }
    None
}

// Whether an object is this one or one along its links.
fn is_in_chain(cells: &[ObjectCell], o: u32, start: Option<u32>) -> bool
    requires start { Within cells.now start }
    requires links { LinksWithin cells.now }
    ensures { result ≡ in_chain cells.now o start }
{
    let mut at = start;
    for step in 0..cells.len() {
        match at {
            None => return false,
            Some(here) => {
                if here == o {
                    return true;
                }
                at = cells[here as usize].link();
            }
        }
    }
    false
}

// Whether an object and those along its links have more than so many properties together.
fn has_more(cells: &[ObjectCell], o: u32, most: usize) -> bool
    requires object { o < length cells.now }
    requires links { LinksWithin cells.now }
    ensures { result ≡ nat_lt most (count_along cells.now (chain cells.now (Some o))) }
{
    let mut at = o;
    let mut left = most;
    for turn in 0..cells.len() {
        let cell = &cells[at as usize];
        if left < cell.len() {
            return true;
        }
        left -= cell.len();
        match cell.link() {
            Some(next) => at = next,
            None => return false,
        }
    }
    false
}

// The array indices that an object and those along its links have, in this order.
fn indices_along(alloc: Global, cells: &[ObjectCell], o: u32) -> Result<Vec<u32>, NoMemory>
    requires object { o < length cells.now }
    requires links { LinksWithin cells.now }
    ensures { IfOk result (λ found. found.items ≡ indices_along cells.now (chain cells.now (Some o))) }
{
    let mut found = Vec::new(alloc);
    let mut at = o;
    for turn in 0..cells.len() {
        let cell = &cells[at as usize];
        cell.push_indices(&mut found)?;
        match cell.link() {
            Some(next) => at = next,
            None => return Ok(found),
        }
    }
    Ok(found)
}

impl ObjHeap {
    /// A heap without objects that has room for so many.
    pub fn new(alloc: Global, cells: u32) -> Result<ObjHeap, NoMemory>
        ensures empty { IfOk result (λ heap. heap.cells ≡ []) }
        ensures capacity { IfOk result (λ heap. heap.capacity ≡ cells) }
    {
        match Vec::with_capacity(alloc, cells as usize) {
            Ok(reserved) => Ok(ObjHeap {
                alloc,
                cells: reserved,
                capacity: cells,
            }),
            Err(_) => Err(NoMemory),
        }
    }

    /// The number of objects.
    pub fn len(&self) -> u32
        ensures len { result ≡ length self.now.cells }
        ensures within { result ≤ self.now.capacity }
        ensures links { LinksWithin self.now.cells }
        ensures no_cycle { NoCycle self.now.cells }
    {
        self.cells.len() as u32
    }

    /// How many objects there is room for.
    pub fn capacity(&self) -> u32
        ensures { result ≡ self.now.capacity }
    {
        self.capacity
    }

    /// Makes an object of a kind, with its link and no own properties, and answers its number; `Full`
    /// exactly where no cell is left. It takes no memory.
    pub fn create_as(&mut self, proto: Option<u32>, kind: CellKind) -> Result<u32, Full>
        requires { Within self.old.cells proto }
        ensures number { IfOk result (λ o. o ≡ length self.old.cells) }
        ensures made { OnOk result (self.new.cells ≡ self.old.cells ++ new_cell (kind_of kind) proto ∷ []) }
        ensures full { IsErr result ↔ (self.old.capacity ≤ length self.old.cells) }
        ensures unchanged { OnErr result (self.new ≡ self.old) }
        ensures capacity { self.new.capacity ≡ self.old.capacity }
    {
        let made = self.cells.len() as u32;
        if self.capacity <= made {
            return Err(Full);
        }
        match self.cells.push(ObjectCell::new(self.alloc, kind, proto)) {
            Ok(()) => Ok(made),
            Err(_) => Err(Full),
        }
    }

    /// Makes a plain object: `create_as` with the kind `Object`.
    pub fn create(&mut self, proto: Option<u32>) -> Result<u32, Full>
        requires { Within self.old.cells proto }
        ensures number { IfOk result (λ o. o ≡ length self.old.cells) }
        ensures made { OnOk result (self.new.cells ≡ self.old.cells ++ new_cell Object proto ∷ []) }
        ensures full { IsErr result ↔ (self.old.capacity ≤ length self.old.cells) }
        ensures unchanged { OnErr result (self.new ≡ self.old) }
        ensures capacity { self.new.capacity ≡ self.old.capacity }
    {
        self.create_as(proto, CellKind::Object)
    }

    /// The kind of an object.
    pub fn kind(&self, o: u32) -> CellKind
        requires { o < length self.now.cells }
        ensures { kind_of result ≡ (cell_at self.now.cells o).kind }
    {
        self.cells[o as usize].kind()
    }

    /// The link of an object.
    pub fn proto(&self, o: u32) -> Option<u32>
        requires { o < length self.now.cells }
        ensures link { result ≡ link_at self.now.cells o }
        ensures within { Within self.now.cells result }
    {
        self.cells[o as usize].link()
    }

    /// The value of an own property.
    pub fn own(&self, o: u32, name: &Units) -> Option<&EsValue>
        requires { o < length self.now.cells }
        ensures { value_if (option_copied result) ≡ own (cell_at self.now.cells o) name.now }
    {
        self.cells[o as usize].own(name)
    }

    /// The value of a property of an object or of the first along its links that has one.
    pub fn get(&self, o: u32, name: &Units) -> Option<&EsValue>
        requires { o < length self.now.cells }
        ensures { value_if (option_copied result) ≡ get self.now.cells o name.now }
    {
        find(&self.cells, o, name)
    }

    /// Makes or changes an own property. Where no memory is found, nothing changes.
    pub fn put(&mut self, o: u32, name: Units, value: EsValue) -> Result<(), NoMemory>
        requires object { o < length self.old.cells }
        requires whole_length { CanPut (cell_at self.old.cells o) name (value_of value) }
        ensures ok { OnOk result (self.new ≡ with_cell self.old o (put (cell_at self.old.cells o) name (value_of value))) }
        ensures err { OnErr result (self.new ≡ self.old) }
        ensures count { length self.new.cells ≡ length self.old.cells }
    {
        let cell = &mut self.cells[o as usize];
        cell.put(name, value)
    }

    /// Deletes an own property, and tells whether it was there. It takes no memory.
    pub fn delete(&mut self, o: u32, name: &Units) -> bool
        requires object { o < length self.old.cells }
        requires no_length { is_array_length (cell_at self.old.cells o) name.now ≡ false }
        ensures there { result ≡ is_some (own (cell_at self.old.cells o) name.now) }
        ensures after { self.new ≡ with_cell self.old o (delete (cell_at self.old.cells o) name.now) }
        ensures count { length self.new.cells ≡ length self.old.cells }
    {
        let cell = &mut self.cells[o as usize];
        cell.delete(name)
    }

    /// The names that `Object.keys` lists, in its order: array indices first in rising order, then the
    /// others in the order of making, without the `length` of an array or arguments object.
    pub fn keys(&self, o: u32) -> Result<Names, NoMemory>
        requires { o < length self.now.cells }
        ensures { IfOk result (λ names. names ≡ keys (cell_at self.now.cells o)) }
    {
        self.cells[o as usize].keys(self.alloc)
    }

    /// Changes the link of an object, or `Cycle` exactly where it is the object of the new link or
    /// one along that one's links; then nothing changes. It takes no memory.
    pub fn set_proto(&mut self, o: u32, p: Option<u32>) -> Result<(), Cycle>
        requires object { o < length self.old.cells }
        requires link { Within self.old.cells p }
        ensures cycle { is_err result ≡ in_chain self.old.cells o p }
        ensures ok { OnOk result (self.new ≡ with_cell self.old o (with_link (cell_at self.old.cells o) p)) }
        ensures err { OnErr result (self.new ≡ self.old) }
        ensures count { length self.new.cells ≡ length self.old.cells }
    {
        if is_in_chain(&self.cells, o, p) {
            return Err(Cycle);
        }
        let cell = &mut self.cells[o as usize];
        cell.set_link(p);
        Ok(())
    }

    /// Whether an object and those along its links have more than so many properties together, without
    /// the `length` of arrays. It takes no memory.
    pub fn has_more(&self, o: u32, most: usize) -> bool
        requires { o < length self.now.cells }
        ensures { result ≡ nat_lt most (count_along self.now.cells (chain self.now.cells (Some o))) }
    {
        has_more(&self.cells, o, most)
    }

    /// The array indices that an object and those along its links have, in rising order, each as often
    /// as one of them has it. At all others `get` finds nothing.
    pub fn indices(&self, o: u32) -> Result<Vec<u32>, NoMemory>
        requires { o < length self.now.cells }
        ensures rising { IfOk result (λ found. found.items ≡ rising (indices_along self.now.cells (chain self.now.cells (Some o)))) }
        ensures others { IfOk result (λ found. (i : ℕ) → i < index_end → list_any (nat_eq i) found.items ≡ false → get self.now.cells o (decimal i) ≡ None) }
    {
        sorted(indices_along(self.alloc, &self.cells, o)?)
    }
}
