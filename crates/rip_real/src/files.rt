ghost use Rattle.std.specs.Prelude.{◌≡◌, ◌≤◌, length, IfOk};
ghost use Rattle.rip_outer.specs.Reading.{longest_file};

use crate::history::{Deed, History};
use rip_base::Bytes;
use rip_outer::{Files, FilesError, MAX_FILE};
use std::alloc::Global;
use std::io::{ErrorKind, Read};
use std::marker::Model;
use std::{fs, io, rt};

/// Bytes that are read at once.
const ROOM: usize = 4096;

/// The files of the machine. They tell the names that were asked, and not what is held; and, to people, which file could
/// not be read last, and why.
#[derive(Drop)]
pub struct HostFiles<'a, R> {
    rt: &'a R,
    history: History,
    faults: u64,
    failure: Option<Unread>,
}

/// A file that could not be read: its name, where there was memory for it, and why.
#[derive(Drop)]
pub struct Unread {
    pub name: Option<String>,
    pub error: io::Error,
}

impl<'a, R> Model for HostFiles<'a, R> {
    ghost use Rattle.rip_real.specs.History.{HostState};

    ghost Value = { HostState };

    ghost view = { λ s. record { deeds = s.history.deeds; faults = s.faults } };
}

impl<'a, R> HostFiles<'a, R> {
    ghost use Rattle.std.specs.Prelude.{◌≡◌};
    ghost use Rattle.rip_real.specs.History.{new_state};

    /// Files of which none was asked, and of which no read has failed.
    pub fn new(rt: &'a R) -> HostFiles<'a, R>
        ensures { result ≡ new_state }
    {
        HostFiles {
            rt,
            history: History::new(),
            faults: 0,
            failure: None,
        }
    }

    /// The file that could not be read last.
    pub fn failure(&self) -> Option<&Unread> {
        self.failure.as_ref()
    }
}

/// Why reading a file stopped.
#[derive(Drop)]
enum ReadError {
    Failed(io::Error),
    TooLong,
    Memory,
}

/// The contents of a file, at most [`MAX_FILE`] bytes. A read that was interrupted is tried again.
fn read_file<R: rt::Files>(rt: &R, alloc: Global, name: &str) -> Result<Bytes, ReadError>
    ensures { IfOk result (λ bytes. length bytes ≤ longest_file) }
{
    let mut file = fs::open(rt, name).map_err(ReadError::Failed)?;
    let mut bytes = Vec::new(alloc);
    let mut room = [0u8; ROOM];
    'reads: for _ in 0..u64::MAX {
        let count = match file.read(&mut room) {
            Ok(count) => count,
            Err(error) if error.kind() == ErrorKind::Interrupted => continue 'reads,
            Err(error) => return Err(ReadError::Failed(error)),
        };
        if count == 0 {
            return Ok(Bytes::from_vec(bytes));
        }
        if MAX_FILE - bytes.len() < count {
            return Err(ReadError::TooLong);
        }
        if bytes.extend_from_slice(&room[..count]).is_err() {
            return Err(ReadError::Memory);
        }
    }
    Err(ReadError::Failed(io::Error::from(ErrorKind::Other)))
}

/// A file that could not be read.
fn failure_of(alloc: Global, name: &str, error: io::Error) -> Unread {
    Unread {
        name: String::from_str(alloc, name).ok(),
        error,
    }
}

impl<'a, R: rt::Files> Files for HostFiles<'a, R> {
    ghost use Rattle.std.specs.Prelude.{None};
    ghost use Rattle.rip_real.specs.History.{names_in};

    ghost held = { λ _. None };

    ghost asked = { λ f. names_in f.deeds };

    ghost count = { λ f. f.faults };

    fn faults(&self) -> u64 {
        self.faults
    }

    fn read_all(&mut self, alloc: Global, name: &str) -> Result<Bytes, FilesError> {
        let answer = read_file(self.rt, alloc, name);
        if matches!(answer, Err(ReadError::Memory)) {
            return Err(FilesError::Memory);
        }
        self.history = self.history.then(&Deed::Read(name));
        match answer {
            Ok(bytes) => Ok(bytes),
            Err(ReadError::Failed(error)) => {
                self.failure = Some(failure_of(alloc, name, error));
                self.faults = self.faults.saturating_add(1);
                Err(FilesError::Failed)
            }
            Err(_) => Err(FilesError::TooLong),
        }
    }
}
