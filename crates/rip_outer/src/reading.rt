use rip_base::{Bytes, List};
use std::alloc::Global;
use thiserror::Error;

/// The most bytes of a file that is read.
pub const MAX_FILE: usize = 16_777_216;

/// Why a file wasn't read.
#[derive(Clone, Copy, Debug, PartialEq, Eq, Error)]
pub enum FilesError {
    #[error("a file could not be read")]
    Failed,
    #[error("a file is longer than {} bytes", MAX_FILE)]
    TooLong,
    #[error("out of memory")]
    Memory,
}

/// A file: its name, as UTF-8, and its contents.
#[derive(Debug, PartialEq, Drop)]
pub struct NamedFile {
    pub name: Bytes,
    pub contents: Bytes,
}

/// Files by name; of two with one name the first counts.
pub type FileList = List<NamedFile>;

/// Files that are read whole.
pub trait Files {
    ghost use Rattle.std.specs.Prelude.{◌≡◌, ◌≤◌, ℕ, List, Option, length, IfOk, IsErrOf};
    ghost use Rattle.rip_outer.specs.declared.reading.NamedFile.{NamedFile};
    ghost use Rattle.rip_outer.specs.Reading.{Asks, IsContents, IsTooLong, CountsRead, longest_file};

    // The files that are there, and the names asked so far, where the object tells them; how many calls failed.
    ghost held: { Self → Option (List NamedFile) };

    ghost asked: { Self → Option (List (List ℕ)) };

    ghost count: { Self → ℕ };

    /// How often the outside failed so far.
    fn faults(&self) -> u64
        ensures { result ≡ count self.now };

    /// The contents of the file of that name, at most [`MAX_FILE`] bytes.
    ///
    /// # Errors
    ///
    /// `Failed` where the outside failed or has no such file, `TooLong` where the file passes [`MAX_FILE`] bytes, and
    /// `Memory` for want of memory.
    fn read_all(&mut self, alloc: Global, name: &str) -> Result<Bytes, FilesError>
        ensures contents { IfOk result (λ bytes. IsContents (held self.old) name.now bytes) }
        ensures fits { IfOk result (λ bytes. length bytes ≤ longest_file) }
        ensures too_long { IsErrOf result FilesError.TooLong → IsTooLong (held self.old) name.now }
        ensures asked { Asks result name.now (asked self.old) (asked self.new) }
        ensures held { held self.new ≡ held self.old }
        ensures counted { CountsRead result (count self.old) (count self.new) }
        ensures later { count self.old ≤ count self.new };
}
