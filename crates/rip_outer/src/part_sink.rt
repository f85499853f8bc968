ghost use Rattle.std.specs.Prelude.{◌≡◌, IfOk};

use crate::writing::{Sink, SinkError};
use rip_base::NoMemory;
use std::alloc::Global;
use std::marker::Model;

/// A sink in memory, which fails at one of its calls, where it takes a front of the bytes. It stands for the bytes put, the
/// number of the call that fails, from 1, how many bytes that call takes at most, and the counts of its calls and its
/// faults, each of which stays at the end of 64 bits.
#[derive(Debug, Drop)]
pub struct PartSink {
    bytes: Vec<u8>,
    failing: u64,
    part: usize,
    calls: u64,
    faults: u64,
}

impl Model for PartSink {
    ghost use Rattle.rip_outer.specs.Memory.{PartState};

    ghost Value = { PartState };

    ghost view = { λ s. record {
      bytes = s.bytes.items;
      failing = s.failing;
      part = s.part;
      calls = s.calls;
      faults = s.faults;
    } };
}

impl PartSink {
    ghost use Rattle.rip_outer.specs.Memory.{new_part_sink};

    /// A sink that has taken nothing. It fails at this call, numbered from 1, and takes the first `count` of the bytes then,
    /// or all where there are fewer.
    pub fn make(alloc: Global, call: u64, count: usize) -> Result<PartSink, NoMemory>
        ensures { IfOk result (λ sink. sink ≡ new_part_sink call count) }
    {
        Ok(PartSink {
            bytes: Vec::new(alloc),
            failing: call,
            part: count,
            calls: 0,
            faults: 0,
        })
    }

    /// All bytes put.
    pub fn bytes(&self) -> &[u8]
        ensures { result.now ≡ self.now.bytes }
    {
        self.bytes.as_slice()
    }
}

impl Sink for PartSink {
    ghost use Rattle.std.specs.Prelude.{◌≡◌, ◌≢◌, ◌+◌, ◌≤◌, Some, IsErr, IsErrOf};
    ghost use Rattle.rip_outer.specs.Memory.{after_part};
    ghost use Rattle.rip_outer.specs.Writing.{CountsPut, Takes};

    ghost held = { λ s. Some s.bytes };

    ghost count = { λ s. s.faults };

    fn faults(&self) -> u64 {
        self.faults
    }

    fn put(&mut self, bytes: &[u8]) -> Result<(), SinkError>
        ensures failed { IsErrOf result SinkError.Failed
            → self.old.failing ≡ self.old.calls + 1 }
        ensures fails { self.old.failing ≡ self.old.calls + 1 → IsErr result }
        ensures after { self.new ≡ after_part result bytes.now self.old }
        ensures taken { Takes result bytes.now (Some self.old.bytes) (Some self.new.bytes) }
        ensures counted { CountsPut result self.old.faults self.new.faults }
        ensures later { self.old.faults ≤ self.new.faults }
    {
        let fails = self.failing != 0 && self.failing - 1 == self.calls;
        self.calls = self.calls.saturating_add(1);
        if fails {
            let front = &bytes[..self.part.min(bytes.len())];
            if self.bytes.extend_from_slice(front).is_err() {
                return Err(SinkError::Memory);
            }
            self.faults = self.faults.saturating_add(1);
            return Err(SinkError::Failed);
        }
        match self.bytes.extend_from_slice(bytes) {
            Ok(()) => Ok(()),
            Err(_) => Err(SinkError::Memory),
        }
    }
}
