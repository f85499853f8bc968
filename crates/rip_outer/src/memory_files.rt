ghost use Rattle.std.specs.Prelude.{◌≡◌, ◌++◌, ◌∷◌, [], IfOk, OnOk, OnErr};
ghost use Rattle.std.specs.Option.{option_copied};
ghost use Rattle.rip_outer.specs.Reading.{contents_of};

use crate::listed::{copy_of_numbers, is_listed};
use crate::reading::{FileList, Files, FilesError, MAX_FILE, NamedFile};
use rip_base::{Bytes, List, NoMemory, NumberList};
use std::alloc::Global;
use std::marker::Model;

/// Files in memory, which fail at chosen calls and at each name that they don't hold. They stand for the files, the
/// numbers of the calls that fail, from 1, the names asked, and the counts of their calls and faults, each of which
/// stays at the end of 64 bits.
#[derive(Debug, Drop)]
pub struct MemoryFiles {
    files: FileList,
    failing: NumberList,
    asked: Vec<Bytes>,
    calls: u64,
    faults: u64,
}

impl Model for MemoryFiles {
    ghost use Rattle.rip_outer.specs.Memory.{FilesState};

    ghost Value = { FilesState };

    ghost view = { λ s. record {
      files = s.files;
      failing = s.failing;
      asked = s.asked.items;
      calls = s.calls;
      faults = s.faults;
    } };
}

impl MemoryFiles {
    ghost use Rattle.rip_outer.specs.Memory.{new_files, Answers};

    /// These files, which fail at these calls, numbered from 1.
    pub fn make(
        alloc: Global,
        files: &FileList,
        failing: &NumberList,
    ) -> Result<MemoryFiles, NoMemory>
        ensures { IfOk result (λ made. made ≡ new_files files.now failing.now) }
    {
        Ok(MemoryFiles {
            files: copy_of_files(alloc, files)?,
            failing: copy_of_numbers(alloc, failing)?,
            asked: Vec::new(alloc),
            calls: 0,
            faults: 0,
        })
    }

    /// What the next call answers, before the name is added to the names asked.
    fn answer(&self, alloc: Global, name: &str) -> Result<Bytes, FilesError>
        ensures { Answers self.now name.now result }
    {
        let Some(contents) = find_contents(&self.files, name) else {
            return Err(FilesError::Failed);
        };
        if is_listed(&self.failing, self.calls) {
            return Err(FilesError::Failed);
        }
        if contents.len() > MAX_FILE {
            return Err(FilesError::TooLong);
        }
        match Bytes::from_slice(alloc, contents.as_slice()) {
            Ok(bytes) => Ok(bytes),
            Err(_) => Err(FilesError::Memory),
        }
    }
}

impl Files for MemoryFiles {
    ghost use Rattle.std.specs.Prelude.{◌≡◌, ◌≤◌, Some};
    ghost use Rattle.rip_outer.specs.Memory.{Answers, after_read};

    ghost held = { λ s. Some s.files };

    ghost asked = { λ s. Some s.asked };

    ghost count = { λ s. s.faults };

    fn faults(&self) -> u64 {
        self.faults
    }

    fn read_all(&mut self, alloc: Global, name: &str) -> Result<Bytes, FilesError>
        ensures answers { Answers self.old name.now result }
        ensures after { self.new ≡ after_read result name.now self.old }
        ensures later { self.old.faults ≤ self.new.faults }
    {
        let answer = self.answer(alloc, name);
        self.calls = self.calls.saturating_add(1);
        if matches!(answer, Err(FilesError::Memory))
            || add_name(alloc, &mut self.asked, name).is_err()
        {
            return Err(FilesError::Memory);
        }
        if matches!(answer, Err(FilesError::Failed)) {
            self.faults = self.faults.saturating_add(1);
        }
        answer
    }
}

/// The contents of the first file of that name.
fn find_contents<'a>(files: &'a FileList, name: &str) -> Option<&'a Bytes>
    ensures { option_copied result ≡ contents_of files.now name.now }
{
    for file in files.as_slice() {
        if file.name.as_slice() == name.as_bytes() {
            return Some(&file.contents);
        }
    }
    None
}

/// Adds a name at the end.
fn add_name(alloc: Global, names: &mut Vec<Bytes>, name: &str) -> Result<(), NoMemory>
    ensures ok { OnOk result (names.new.items ≡ names.old.items ++ name.now ∷ []) }
    ensures err { OnErr result (names.new.items ≡ names.old.items) }
{
    let copy = Bytes::from_slice(alloc, name.as_bytes())?;
    names.push(copy)?;
    Ok(())
}

/// The same files once more.
fn copy_of_files(alloc: Global, files: &FileList) -> Result<FileList, NoMemory>
    ensures { IfOk result (λ copy. copy ≡ files.now) }
{
    let mut copy = Vec::new(alloc);
    for file in files.as_slice() {
        copy.push(NamedFile {
            name: Bytes::from_slice(alloc, file.name.as_slice())?,
            contents: Bytes::from_slice(alloc, file.contents.as_slice())?,
        })?;
    }
    Ok(List::from_vec(copy))
}
