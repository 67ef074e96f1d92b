// A sink in memory.
ghost use Rattle.std.specs.Prelude.{◌≡◌, ◌<◌, ◌-◌, ◌^◌};
ghost use Rattle.net_core.specs.InMemory.{empty_sink};

use super::counted::Calls;
use super::sink::{Sink, WriteRefusal};
use std::alloc::Global;
use std::marker::Model;

/// Keeps what it takes, at most a given number of bytes a write, and fails at the calls of given
/// numbers: the first call is number 1. Each of these that was made is one fault.
#[derive(Debug, Drop)]
pub struct MemSink {
    bytes: Vec<u8>,
    longest: usize,
    calls: Calls,
    shortages: u64,
}

impl Model for MemSink {
    ghost use Rattle.std.specs.Prelude.{◌<◌};
    ghost use Rattle.net_core.specs.InMemory.{MemorySink};

    ghost Value = { MemorySink };

    ghost view = { λ m. record {
      bytes = m.bytes.items;
      longest = m.longest;
      calls = m.calls;
      shortages = m.shortages;
    } };

    ghost invariant = { λ m. 0 < m.longest };
}

impl MemSink {
    /// An empty sink that takes whole pieces, and whose calls of these numbers are to fail.
    pub fn new(alloc: Global, failing: Vec<u64>) -> MemSink
        ensures { result ≡ empty_sink (2 ^ 64 - 1) failing.items }
    {
        MemSink::with_limit(alloc, failing, usize::MAX)
    }

    /// An empty sink that takes at most `longest` bytes a write, at least one.
    pub fn with_limit(alloc: Global, failing: Vec<u64>, longest: usize) -> MemSink
        requires { 0 < longest }
        ensures { result ≡ empty_sink longest failing.items }
    {
        MemSink {
            bytes: Vec::new(alloc),
            longest,
            calls: Calls::new(failing),
            shortages: 0,
        }
    }

    /// All that it took, without copying it.
    pub fn into_vec(self) -> Vec<u8>
        ensures { result.items ≡ self.bytes }
    {
        self.bytes
    }

    /// All that it took.
    pub fn as_slice(&self) -> &[u8]
        ensures { result.now ≡ self.now.bytes }
    {
        self.bytes.as_slice()
    }
}

impl Sink for MemSink {
    ghost use Rattle.std.specs.Prelude.{◌≡◌, ◌<◌, ◌≤◌, ◌↔◌, IfOk, IsErrOf, Some, true, length, min};
    ghost use Rattle.net_core.specs.Counts.{WriteCause, WriteShortage};
    ghost use Rattle.net_core.specs.Failing.{after_call, next_fails};
    ghost use Rattle.net_core.specs.Taken.{Takes};

    ghost taken = { λ m. Some m.bytes };

    ghost faults = { λ m. m.calls.faults };

    ghost shortages = { λ m. m.shortages };

    /// Takes as much of the piece as a write may. `Failed` comes exactly at a call that is to fail.
    fn write(&mut self, bytes: &[u8]) -> Result<usize, WriteRefusal>
        requires { 0 < length bytes.now }
        ensures count { IfOk result (λ n. (0 < n) × (n ≤ length bytes.now)) }
        ensures most { IfOk result (λ n. n ≡ min (length bytes.now) self.old.longest) }
        ensures taken { Takes (Some self.old.bytes) (Some self.new.bytes) result bytes.now }
        ensures longest { self.new.longest ≡ self.old.longest }
        ensures calls { self.new.calls ≡ after_call self.old.calls }
        ensures failed { IsErrOf result WriteRefusal.Failed
            ↔ (next_fails self.old.calls ≡ true) }
        ensures cause { WriteCause self.old.calls.faults self.new.calls.faults result }
        ensures shortage { WriteShortage self.old.shortages self.new.shortages result }
    {
        if self.calls.fails() {
            return Err(WriteRefusal::Failed);
        }
        let count = bytes.len().min(self.longest);
        if self.bytes.extend_from_slice(&bytes[..count]).is_err() {
            self.shortages = self.shortages.saturating_add(1);
            return Err(WriteRefusal::Memory);
        }
        Ok(count)
    }
}
