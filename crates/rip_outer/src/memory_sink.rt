ghost use Rattle.std.specs.Prelude.{◌≡◌, ◌+◌, ◌↔◌, Contains, IfOk, IsErrOf};

use crate::listed::{copy_of_numbers, is_listed};
use crate::writing::{Sink, SinkError};
use rip_base::{NoMemory, NumberList};
use std::alloc::Global;
use std::marker::Model;

/// A sink in memory, which fails at chosen calls. It stands for the bytes put, the numbers of the calls that fail, from
/// 1, and the counts of its calls and its faults, each of which stays at the end of 64 bits.
#[derive(Debug, Drop)]
pub struct MemorySink {
    bytes: Vec<u8>,
    failing: NumberList,
    calls: u64,
    faults: u64,
}

impl Model for MemorySink {
    ghost use Rattle.rip_outer.specs.Memory.{SinkState};

    ghost Value = { SinkState };

    ghost view = { λ s. record {
      bytes = s.bytes.items;
      failing = s.failing;
      calls = s.calls;
      faults = s.faults;
    } };
}

impl MemorySink {
    ghost use Rattle.rip_outer.specs.Memory.{new_sink};

    /// A sink that has taken nothing, and fails at these calls, numbered from 1.
    pub fn make(alloc: Global, failing: &NumberList) -> Result<MemorySink, NoMemory>
        ensures { IfOk result (λ sink. sink ≡ new_sink failing.now) }
    {
        Ok(MemorySink {
            bytes: Vec::new(alloc),
            failing: copy_of_numbers(alloc, failing)?,
            calls: 0,
            faults: 0,
        })
    }

    /// All bytes put.
    pub fn bytes(&self) -> &[u8]
        ensures { result.now ≡ self.now.bytes }
    {
        self.bytes.as_slice()
    }
}

impl Sink for MemorySink {
    ghost use Rattle.std.specs.Prelude.{◌≡◌, ◌+◌, ◌≤◌, ◌↔◌, Some, Contains, IsErrOf};
    ghost use Rattle.rip_outer.specs.Memory.{after_put};

    ghost held = { λ s. Some s.bytes };

    ghost count = { λ s. s.faults };

    fn faults(&self) -> u64 {
        self.faults
    }

    fn put(&mut self, bytes: &[u8]) -> Result<(), SinkError>
        ensures failed { IsErrOf result SinkError.Failed
            ↔ Contains self.old.failing (self.old.calls + 1) }
        ensures after { self.new ≡ after_put result bytes.now self.old }
        ensures later { self.old.faults ≤ self.new.faults }
    {
        let fails = is_listed(&self.failing, self.calls);
        self.calls = self.calls.saturating_add(1);
        if fails {
            self.faults = self.faults.saturating_add(1);
            return Err(SinkError::Failed);
        }
        match self.bytes.extend_from_slice(bytes) {
            Ok(()) => Ok(()),
            Err(_) => Err(SinkError::Memory),
        }
    }
}
