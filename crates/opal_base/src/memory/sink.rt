ghost use Rattle.std.specs.Prelude.{◌≡◌, ◌≤◌, [], None};

use crate::fault::Failed;
use crate::memory::failures::Failures;
use crate::sink::Sink;
use std::alloc::Global;

/// Takes bytes into memory, at most so many a call, and fails at the calls that it was told to.
#[derive(Drop)]
pub struct MemSink {
    taken: Vec<u8>,
    most_per_call: usize,
    failures: Failures,
    ghost takes: { 1 ≤ most_per_call },
}

impl MemSink {
    ghost use Rattle.opal_base.specs.Memory.{sink_bytes, sink_limit, sink_failures, AreNew};

    /// A sink that has taken nothing. `failing` holds the numbers of the calls that fail, the first being 0.
    pub fn new(alloc: Global, most_per_call: usize, failing: Vec<u64>) -> MemSink
        requires { 1 ≤ most_per_call }
        ensures taken { sink_bytes result ≡ [] }
        ensures limit { sink_limit result ≡ most_per_call }
        ensures failing { AreNew (sink_failures result) failing.items }
    {
        MemSink {
            taken: Vec::new(alloc),
            most_per_call,
            failures: Failures::new(failing),
        }
    }

    /// The bytes taken so far.
    pub fn taken(&self) -> &[u8]
        ensures { result.now ≡ sink_bytes self.now }
    {
        &self.taken
    }
}

impl Sink for MemSink {
    ghost use Rattle.std.specs.Prelude.{Some, ◌<◌, ◌++◌, min, length, take, IfOk, OnErr, IsErr};
    ghost use Rattle.opal_base.specs.Memory.{sink_bytes, sink_limit, sink_failures, CountsCall, FailsNext};
    ghost use Rattle.opal_base.specs.Outside.{HasCause};

    ghost told = { λ sink. Some (sink_bytes sink) };

    ghost faults = { λ sink. sink.failures.faults };

    fn write(&mut self, bytes: &[u8]) -> Result<usize, Failed>
        ensures count { IfOk result (λ count. count ≡ min (length bytes.now) (sink_limit self.old)) }
        ensures took { IfOk result (λ count. sink_bytes self.new ≡ sink_bytes self.old ++ take count bytes.now) }
        ensures kept { OnErr result (sink_bytes self.new ≡ sink_bytes self.old) }
        ensures limit { sink_limit self.new ≡ sink_limit self.old }
        ensures some { 1 ≤ sink_limit self.old }
        ensures cause { HasCause (sink_failures self.old).faults (sink_failures self.new).faults result }
        ensures told { FailsNext (sink_failures self.old) → IsErr result }
        ensures counted { CountsCall (sink_failures self.old) (sink_failures self.new) }
    {
        if self.failures.next_fails() {
            return Err(Failed);
        }
        let count = bytes.len().min(self.most_per_call);
        if self.taken.extend_from_slice(&bytes[..count]).is_err() {
            self.failures.count();
            return Err(Failed);
        }
        Ok(count)
    }
}

/// Takes every piece whole and keeps nothing.
#[derive(Drop)]
pub struct NullSink;

impl NullSink {
    /// The sink that keeps nothing.
    pub fn new() -> NullSink {
        NullSink
    }
}

impl Sink for NullSink {
    ghost told = { λ sink. None };

    ghost faults = { λ sink. 0 };

    fn write(&mut self, bytes: &[u8]) -> Result<usize, Failed> {
        Ok(bytes.len())
    }
}
