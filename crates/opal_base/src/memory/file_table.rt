ghost use Rattle.std.specs.Prelude.{◌≡◌, ◌≤◌, ℕ, List, length, IfOk, OnOk, OnErr, IsErrOf, Some, None, if◌then◌else◌, string_bytes};
ghost use Rattle.std.specs.Option.{option_copied};
ghost use Rattle.std.specs.Str.{bytes_eq};
ghost use Rattle.opal_base.specs.Outside.{HasContent, IsAbsentFrom, Missed};
ghost use Rattle.opal_base.specs.Memory.{file_map, table_map, KeepsAbsent};

use crate::fault::{FileFault, NoMemory};
use std::alloc::Global;

/// A name and what stands under it.
#[derive(Drop)]
pub struct Entry {
    pub name: String,
    pub bytes: Vec<u8>,
}

// The content in the first entry of this name.
fn find<'a>(entries: &'a [Entry], name: &str) -> Option<&'a [u8]>
    ensures { option_copied result ≡ file_map entries.now name.now }
{
    let mut rest = entries;
    while let [entry, after @ ..] = rest {
        if entry.name.as_str() == name {
            return Some(&entry.bytes);
        }
        rest = after;
    }
    None
}

/// Files by their names, how often one was absent, and the name of the last of these.
#[derive(Drop)]
pub struct FileTable {
    pub entries: Vec<Entry>,
    pub tally: u64,
    pub missed: String,
}

impl FileTable {
    /// No files.
    pub fn new(alloc: Global) -> FileTable
        ensures files { (name : List ℕ) → table_map result name ≡ None }
        ensures tally { result.tally ≡ 0 }
    {
        FileTable {
            entries: Vec::new(alloc),
            tally: 0,
            missed: String::new(alloc),
        }
    }

    /// Puts a file under a name, before an older one of this name.
    pub fn insert(&mut self, name: String, bytes: Vec<u8>) -> Result<(), NoMemory>
        ensures put { OnOk result ((other : List ℕ) → table_map self.new other
            ≡ (if bytes_eq (string_bytes name) other then Some bytes.items else table_map self.old other)) }
        ensures same { OnErr result ((other : List ℕ) → table_map self.new other ≡ table_map self.old other) }
        ensures absent { KeepsAbsent self.old self.new }
    {
        match self.entries.insert(0, Entry { name, bytes }) {
            Ok(()) => Ok(()),
            Err(_) => Err(NoMemory),
        }
    }

    /// The content of a file, or its first `most` bytes where it is longer.
    pub fn read(&mut self, alloc: Global, name: &str, most: usize) -> Result<Vec<u8>, FileFault>
        ensures told { self.new.entries ≡ self.old.entries }
        ensures bound { IfOk result (λ bytes. length bytes.items ≤ most) }
        ensures content { IfOk result (λ bytes. HasContent (Some (table_map self.old)) name.now most bytes.items) }
        ensures absent { IsErrOf result FileFault.Absent → IsAbsentFrom (Some (table_map self.old)) name.now }
        ensures missed { IsErrOf result FileFault.Absent → Missed self.old.tally self.new.tally (string_bytes self.new.missed) name.now }
        ensures later_tally { self.old.tally ≤ self.new.tally }
        ensures sure { IsErrOf result FileFault.Failed → ⊥ }
    {
        match find(&self.entries, name) {
            Some(bytes) => match bytes[..bytes.len().min(most)].to_vec(alloc) {
                Ok(content) => Ok(content),
                Err(_) => Err(FileFault::NoMemory),
            },
            None => match name.to_string(alloc) {
                Ok(kept) => {
                    self.missed = kept;
                    self.tally = self.tally.saturating_add(1);
                    Err(FileFault::Absent)
                }
                Err(_) => Err(FileFault::NoMemory),
            },
        }
    }
}
