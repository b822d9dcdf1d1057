ghost use Rattle.std.specs.Prelude.{◌≡◌, ℕ, ◌≤◌, ◌↔◌, List, length, IfOk, OnOk, OnErr, IsErrOf, Some, None, if◌then◌else◌, string_bytes};
ghost use Rattle.std.specs.Str.{bytes_eq};
ghost use Rattle.opal_base.specs.Memory.{mem_files, mem_table, sure_files, sure_table, file_failures, KeepsAbsent, AreNew, CountsCall, FailsNext};
ghost use Rattle.opal_base.specs.Outside.{Rose, HasContent, IsAbsentFrom, Missed};

use crate::fault::{FileFault, NoMemory};
use crate::files::Files;
use crate::memory::failures::Failures;
use crate::memory::file_table::FileTable;
use std::alloc::Global;

/// Files in memory, which fail at the calls that they were told to.
#[derive(Drop)]
pub struct MemFiles {
    table: FileTable,
    failures: Failures,
}

impl MemFiles {
    /// No files. `failing` holds the numbers of the calls that fail, the first being 0.
    pub fn new(alloc: Global, failing: Vec<u64>) -> MemFiles
        ensures files { (name : List ℕ) → mem_files result name ≡ None }
        ensures tally { (mem_table result).tally ≡ 0 }
        ensures failing { AreNew (file_failures result) failing.items }
    {
        MemFiles {
            table: FileTable::new(alloc),
            failures: Failures::new(failing),
        }
    }

    /// Puts a file under a name, in place of the one that stood there. Where no memory is found,
    /// the files are as before, and name and bytes are given up.
    pub fn insert(&mut self, name: String, bytes: Vec<u8>) -> Result<(), NoMemory>
        ensures put { OnOk result ((other : List ℕ) → mem_files self.new other
            ≡ (if bytes_eq (string_bytes name) other then Some bytes.items else mem_files self.old other)) }
        ensures same { OnErr result ((other : List ℕ) → mem_files self.new other ≡ mem_files self.old other) }
        ensures absent { KeepsAbsent (mem_table self.old) (mem_table self.new) }
        ensures failures { file_failures self.new ≡ file_failures self.old }
    {
        self.table.insert(name, bytes)
    }
}

impl Files for MemFiles {
    ghost told = { λ files. Some (mem_files files) };

    ghost faults = { λ files. files.failures.faults };

    ghost tally = { λ files. files.table.tally };

    ghost missed = { λ files. string_bytes files.table.missed };

    fn read(&mut self, alloc: Global, name: &str, most: usize) -> Result<Vec<u8>, FileFault>
        ensures files { mem_files self.new ≡ mem_files self.old }
        ensures bound { IfOk result (λ bytes. length bytes.items ≤ most) }
        ensures content { IfOk result (λ bytes. HasContent (Some (mem_files self.old)) name.now most bytes.items) }
        ensures absent { IsErrOf result FileFault.Absent → IsAbsentFrom (Some (mem_files self.old)) name.now }
        ensures missed { IsErrOf result FileFault.Absent → Missed (mem_table self.old).tally (mem_table self.new).tally (string_bytes (mem_table self.new).missed) name.now }
        ensures later_tally { (mem_table self.old).tally ≤ (mem_table self.new).tally }
        ensures failed { IsErrOf result FileFault.Failed → Rose (file_failures self.old).faults (file_failures self.new).faults }
        ensures later { (file_failures self.old).faults ≤ (file_failures self.new).faults }
        ensures told { IsErrOf result FileFault.Failed ↔ FailsNext (file_failures self.old) }
        ensures counted { CountsCall (file_failures self.old) (file_failures self.new) }
    {
        if self.failures.next_fails() {
            return Err(FileFault::Failed);
        }
        self.table.read(alloc, name, most)
    }
}

/// Files in memory that never fail.
#[derive(Drop)]
pub struct SureFiles {
    table: FileTable,
}

impl SureFiles {
    /// No files.
    pub fn new(alloc: Global) -> SureFiles
        ensures files { (name : List ℕ) → sure_files result name ≡ None }
        ensures tally { (sure_table result).tally ≡ 0 }
    {
        SureFiles {
            table: FileTable::new(alloc),
        }
    }

    /// Puts a file under a name, in place of the one that stood there. Where no memory is found,
    /// the files are as before, and name and bytes are given up.
    pub fn insert(&mut self, name: String, bytes: Vec<u8>) -> Result<(), NoMemory>
        ensures put { OnOk result ((other : List ℕ) → sure_files self.new other
            ≡ (if bytes_eq (string_bytes name) other then Some bytes.items else sure_files self.old other)) }
        ensures same { OnErr result ((other : List ℕ) → sure_files self.new other ≡ sure_files self.old other) }
        ensures absent { KeepsAbsent (sure_table self.old) (sure_table self.new) }
    {
        self.table.insert(name, bytes)
    }
}

impl Files for SureFiles {
    ghost told = { λ files. Some (sure_files files) };

    ghost faults = { λ files. 0 };

    ghost tally = { λ files. files.table.tally };

    ghost missed = { λ files. string_bytes files.table.missed };

    fn read(&mut self, alloc: Global, name: &str, most: usize) -> Result<Vec<u8>, FileFault> {
        self.table.read(alloc, name, most)
    }
}
