ghost use Rattle.std.specs.Prelude.{◌≡◌, ◌∷◌, [], IfOk, IfErr};
ghost use Rattle.rip_app.specs.App.{AppOf};
ghost use Rattle.rip_trace.specs.Gestures.{AreGestures};
ghost use Rattle.rip_trace.specs.Traces.{IsTrace};
ghost use Rattle.rip_words.specs.Commands.{task_of};
ghost use Rattle.rip_cli.specs.Content.{content_bytes, is_long};
ghost use Rattle.rip_cli.specs.Input.{AreThreeOf, IsAppOf, IsContentOf, IsInputOf, app_files, files_of, first_too_long, three_files};
ghost use Rattle.rip_cli.specs.Steps.{Asked, CountsReading, IsAppCause, IsGesturesCause, IsTraceCause, file_word, word_of};
ghost use Rattle.rip_cli.specs.Words.{in_order};

use crate::refusal::Refusal;
use rip_app::{App, load};
use rip_base::Bytes;
use rip_outer::{Files, FilesError};
use rip_trace::{Gestures, Trace, TraceRefusal, read_gestures, read_trace};
use rip_words::Command;
use std::alloc::Global;

/// What reading a file gave.
#[derive(Debug, Drop)]
pub enum Content {
    Bytes(Bytes),
    /// The file is longer than a file may be.
    TooLong,
}

/// The contents of the files of a page and a manifest.
#[derive(Debug, Drop)]
pub struct AppInput {
    pub page: Content,
    pub manifest: Content,
}

/// The same, and that of a third file: of a trace, or of gestures.
#[derive(Debug, Drop)]
pub struct ThreeFiles {
    pub app: AppInput,
    pub third: Content,
}

/// What the words and the files that they name give; `turns` is how many turns may be made. Generated work has no file.
#[derive(Debug, Drop)]
pub enum Input {
    Check(AppInput),
    Replay { files: ThreeFiles, turns: u64 },
    Serve { files: AppInput, turns: u64 },
    Drive(ThreeFiles),
    Generate(u32),
}

/// A file of the input.
#[derive(Clone, Copy, Debug, PartialEq, Eq)]
pub enum InputFile {
    Page,
    App,
    Trace,
    Gestures,
}

/// Why reading stopped.
#[derive(Clone, Copy, Debug, PartialEq, Eq)]
pub enum ReadStop {
    Failed,
    Memory,
}

impl InputFile {
    /// The word by which a line names the file.
    pub fn word(self) -> &'static [u8]
        ensures { result.now ≡ file_word self }
    {
        match self {
            InputFile::Page => b"page",
            InputFile::App => b"app",
            InputFile::Trace => b"trace",
            InputFile::Gestures => b"gestures",
        }
    }
}

impl Content {
    /// The bytes; none of a file that is too long.
    fn as_slice(&self) -> &[u8]
        ensures { result.now ≡ content_bytes self.now }
    {
        match self {
            Content::Bytes(bytes) => bytes.as_slice(),
            Content::TooLong => b"",
        }
    }

    /// Whether the file is longer than a file may be.
    fn is_too_long(&self) -> bool
        ensures { result ≡ is_long self.now }
    {
        match self {
            Content::Bytes(_) => false,
            Content::TooLong => true,
        }
    }
}

/// Reads one file.
fn read_content<F: Files>(alloc: Global, files: &mut F, name: &str) -> Result<Content, ReadStop>
    ensures content { IfOk result (λ content. IsContentOf (F.held files.old) name.now content) }
    ensures asked { Asked result (name.now ∷ []) (F.asked files.old) (F.asked files.new) }
    ensures held { F.held files.new ≡ F.held files.old }
    ensures counted { CountsReading result (F.count files.old) (F.count files.new) }
{
    match files.read_all(alloc, name) {
        Ok(bytes) => Ok(Content::Bytes(bytes)),
        Err(FilesError::TooLong) => Ok(Content::TooLong),
        Err(FilesError::Failed) => Err(ReadStop::Failed),
        Err(FilesError::Memory) => Err(ReadStop::Memory),
    }
}

impl AppInput {
    /// Reads the two files, in order.
    fn read<F: Files>(
        alloc: Global,
        files: &mut F,
        page: &str,
        manifest: &str,
    ) -> Result<AppInput, ReadStop>
        ensures input { IfOk result (IsAppOf (F.held files.old) page.now manifest.now) }
        ensures asked { Asked result (page.now ∷ manifest.now ∷ [])
            (F.asked files.old) (F.asked files.new) }
        ensures held { F.held files.new ≡ F.held files.old }
        ensures counted { CountsReading result (F.count files.old) (F.count files.new) }
    {
        let page = read_content(alloc, files, page)?;
        let manifest = read_content(alloc, files, manifest)?;
        Ok(AppInput { page, manifest })
    }

    /// The first of the files that is too long.
    fn first_too_long(&self) -> Option<InputFile>
        ensures { word_of result ≡ first_too_long (app_files self.now) }
    {
        if self.page.is_too_long() {
            Some(InputFile::Page)
        } else if self.manifest.is_too_long() {
            Some(InputFile::App)
        } else {
            None
        }
    }

    /// The application of the page and the manifest.
    pub fn load(&self, alloc: Global) -> Result<App, Refusal>
        ensures loaded { IfOk result
            (AppOf (content_bytes self.now.page) (content_bytes self.now.manifest)) }
        ensures refused { IfErr result (IsAppCause self.now) }
    {
        match load(alloc, self.page.as_slice(), self.manifest.as_slice()) {
            Ok(app) => Ok(app),
            Err(cause) => Err(Refusal::Application(cause)),
        }
    }
}

impl ThreeFiles {
    /// Reads the three files, in order.
    fn read<F: Files>(
        alloc: Global,
        files: &mut F,
        page: &str,
        manifest: &str,
        third: &str,
    ) -> Result<ThreeFiles, ReadStop>
        ensures input { IfOk result
            (AreThreeOf (F.held files.old) page.now manifest.now third.now) }
        ensures asked { Asked result (page.now ∷ manifest.now ∷ third.now ∷ [])
            (F.asked files.old) (F.asked files.new) }
        ensures counted { CountsReading result (F.count files.old) (F.count files.new) }
    {
        let app = AppInput::read(alloc, files, page, manifest)?;
        let third = read_content(alloc, files, third)?;
        Ok(ThreeFiles { app, third })
    }

    /// The first of the files that is too long, where the third is this one.
    fn first_too_long(&self, third: InputFile) -> Option<InputFile>
        ensures { word_of result ≡ first_too_long (three_files (file_word third) self.now) }
    {
        match self.app.first_too_long() {
            Some(file) => Some(file),
            None if self.third.is_too_long() => Some(third),
            None => None,
        }
    }

    /// The trace.
    pub fn load_trace(&self, alloc: Global) -> Result<Trace, Refusal>
        ensures read { IfOk result (IsTrace (content_bytes self.now.third)) }
        ensures refused { IfErr result (IsTraceCause self.now) }
    {
        match read_trace(alloc, self.third.as_slice()) {
            Ok(trace) => Ok(trace),
            Err(TraceRefusal::Line(line)) => Err(Refusal::Trace(line)),
            Err(TraceRefusal::Memory) => Err(Refusal::Memory),
        }
    }

    /// The gestures.
    pub fn load_gestures(&self, alloc: Global) -> Result<Gestures, Refusal>
        ensures read { IfOk result (AreGestures (content_bytes self.now.third)) }
        ensures refused { IfErr result (IsGesturesCause self.now) }
    {
        match read_gestures(alloc, self.third.as_slice()) {
            Ok(gestures) => Ok(gestures),
            Err(TraceRefusal::Line(line)) => Err(Refusal::Gestures(line)),
            Err(TraceRefusal::Memory) => Err(Refusal::Memory),
        }
    }
}

impl Input {
    /// Reads the files that a command names, in order.
    pub fn read<F: Files>(
        alloc: Global,
        files: &mut F,
        command: &Command<'_>,
    ) -> Result<Input, ReadStop>
        ensures input { IfOk result (IsInputOf (F.held files.old) (task_of command.now)) }
        ensures asked { Asked result (in_order (task_of command.now))
            (F.asked files.old) (F.asked files.new) }
        ensures counted { CountsReading result (F.count files.old) (F.count files.new) }
    {
        match *command {
            Command::Check { page, app } => match AppInput::read(alloc, files, page, app) {
                Ok(files) => Ok(Input::Check(files)),
                Err(stop) => Err(stop),
            },
            Command::Replay {
                page,
                app,
                trace,
                turns,
            } => match ThreeFiles::read(alloc, files, page, app, trace) {
                Ok(files) => Ok(Input::Replay { files, turns }),
                Err(stop) => Err(stop),
            },
            Command::Serve {
                page,
                app,
                turns,
                ..
            } => match AppInput::read(alloc, files, page, app) {
                Ok(files) => Ok(Input::Serve { files, turns }),
                Err(stop) => Err(stop),
            },
            Command::Drive {
                page,
                app,
                gestures,
            } => match ThreeFiles::read(alloc, files, page, app, gestures) {
                Ok(files) => Ok(Input::Drive(files)),
                Err(stop) => Err(stop),
            },
            Command::Generate(n) => Ok(Input::Generate(n)),
        }
    }

    /// The first of the files that is too long.
    pub fn first_too_long(&self) -> Option<InputFile>
        ensures { word_of result ≡ first_too_long (files_of self.now) }
    {
        match self {
            Input::Check(files) => files.first_too_long(),
            Input::Replay { files, .. } => files.first_too_long(InputFile::Trace),
            Input::Serve { files, .. } => files.first_too_long(),
            Input::Drive(files) => files.first_too_long(InputFile::Gestures),
            Input::Generate(_) => None,
        }
    }
}
