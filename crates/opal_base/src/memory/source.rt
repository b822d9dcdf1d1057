ghost use Rattle.std.specs.Prelude.{◌≡◌, ◌↔◌, Some, IfOk, OnErr, IsErr};
ghost use Rattle.opal_base.specs.Outside.{HasCause, Delivers};
ghost use Rattle.opal_base.specs.Memory.{mem_source_left, sure_source_left, source_failures, AreNew, CountsCall, FailsNext};

use crate::fault::Failed;
use crate::memory::failures::Failures;
use crate::memory::reading::Reading;
use crate::source::Source;
use std::alloc::Global;

/// A source over bytes in memory, which fails at the calls that it was told to.
#[derive(Drop)]
pub struct MemSource {
    read: Reading,
    failures: Failures,
}

impl MemSource {
    /// The source of these bytes. `failing` holds the numbers of the calls that fail, the first being 0.
    pub fn new(_alloc: Global, bytes: Vec<u8>, failing: Vec<u64>) -> MemSource
        ensures left { mem_source_left result ≡ bytes.items }
        ensures failing { AreNew (source_failures result) failing.items }
    {
        MemSource {
            read: Reading::new(bytes),
            failures: Failures::new(failing),
        }
    }
}

impl Source for MemSource {
    ghost left = { λ source. Some (mem_source_left source) };

    ghost faults = { λ source. source.failures.faults };

    fn read(&mut self, buf: &mut [u8]) -> Result<usize, Failed>
        ensures delivers { IfOk result (Delivers (Some (mem_source_left self.old)) (Some (mem_source_left self.new)) buf.new) }
        ensures kept { OnErr result (mem_source_left self.new ≡ mem_source_left self.old) }
        ensures cause { HasCause (source_failures self.old).faults (source_failures self.new).faults result }
        ensures told { IsErr result ↔ FailsNext (source_failures self.old) }
        ensures counted { CountsCall (source_failures self.old) (source_failures self.new) }
    {
        if self.failures.next_fails() {
            return Err(Failed);
        }
        Ok(self.read.read(buf))
    }
}

/// A source over bytes in memory that never fails.
#[derive(Drop)]
pub struct SureSource {
    read: Reading,
}

impl SureSource {
    /// The source of these bytes.
    pub fn new(_alloc: Global, bytes: Vec<u8>) -> SureSource
        ensures { sure_source_left result ≡ bytes.items }
    {
        SureSource {
            read: Reading::new(bytes),
        }
    }
}

impl Source for SureSource {
    ghost left = { λ source. Some (sure_source_left source) };

    ghost faults = { λ source. 0 };

    fn read(&mut self, buf: &mut [u8]) -> Result<usize, Failed> {
        Ok(self.read.read(buf))
    }
}
