ghost use Rattle.std.specs.Prelude.{◌≡◌, ◌≤◌, length};

use crate::history::{Deed, History};
use rip_outer::{Sink, SinkError};
use std::io;
use std::io::{ErrorKind, Write};
use std::marker::Model;

/// A writer as a sink. It tells the bytes that the writer took; and, to people, why putting failed last.
#[derive(Drop)]
pub struct HostSink<W> {
    writer: W,
    history: History,
    faults: u64,
    failure: Option<io::Error>,
}

impl<W> Model for HostSink<W> {
    ghost use Rattle.rip_real.specs.History.{HostState};

    ghost Value = { HostState };

    ghost view = { λ s. record { deeds = s.history.deeds; faults = s.faults } };
}

impl<W> HostSink<W> {
    ghost use Rattle.std.specs.Prelude.{◌≡◌};
    ghost use Rattle.rip_real.specs.History.{new_state};

    /// A sink to which nothing was put, and of which no put has failed.
    pub fn new(writer: W) -> HostSink<W>
        ensures { result ≡ new_state }
    {
        HostSink {
            writer,
            history: History::new(),
            faults: 0,
            failure: None,
        }
    }

    /// Why putting failed last.
    pub fn failure(&self) -> Option<io::Error> {
        self.failure
    }
}

/// Writes the bytes, and says how many of them the writer took: all where none of its calls failed. A write that was
/// interrupted is tried again; why another failed is left in `failure`.
fn write_front<W: Write>(writer: &mut W, bytes: &[u8], failure: &mut Option<io::Error>) -> usize
    ensures { result ≤ length bytes.now }
{
    let mut count = 0;
    for _ in 0..u64::MAX {
        if count == bytes.len() {
            break;
        }
        match writer.write(&bytes[count..]) {
            Ok(0) => {
                *failure = Some(io::Error::from(ErrorKind::WriteZero));
                break;
            }
            Ok(more) => count += more,
            Err(error) if error.kind() == ErrorKind::Interrupted => {}
            Err(error) => {
                *failure = Some(error);
                break;
            }
        }
    }
    count
}

impl<W: Write> Sink for HostSink<W> {
    ghost use Rattle.rip_real.specs.History.{written_in};

    ghost held = { λ s. written_in s.deeds };

    ghost count = { λ s. s.faults };

    fn faults(&self) -> u64 {
        self.faults
    }

    fn put(&mut self, bytes: &[u8]) -> Result<(), SinkError> {
        let count = write_front(&mut self.writer, bytes, &mut self.failure);
        self.history = self.history.then(&Deed::Put(&bytes[..count]));
        if count < bytes.len() {
            self.faults = self.faults.saturating_add(1);
            return Err(SinkError::Failed);
        }
        Ok(())
    }
}
