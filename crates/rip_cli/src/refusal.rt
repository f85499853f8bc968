ghost use Rattle.std.specs.Prelude.{◌≡◌, IfOk, Some};
ghost use Rattle.rip_cli.specs.Lines.{app_line};
ghost use Rattle.rip_cli.specs.Steps.{refusal_line};

use crate::input::InputFile;
use crate::lines::{
    gestures_line, manifest_line, page_line, script_line, too_long_line, trace_line,
};
use rip_app::AppRefusal;
use rip_base::{Bytes, NoMemory};
use std::alloc::Global;

/// Why input is refused.
#[derive(Clone, Copy, Debug, PartialEq, Eq)]
pub enum Refusal {
    /// The file is longer than a file may be.
    TooLong(InputFile),
    /// The page and the manifest are no application.
    Application(AppRefusal),
    /// This line, counted from 1, is the first that is none of a trace.
    Trace(u64),
    /// This line, counted from 1, is the first that is none of a file of gestures, or whose gesture is not legal at its place.
    Gestures(u64),
    /// Want of memory.
    Memory,
}

/// The line for a page and a manifest that are no application; want of memory has none.
fn app_line(alloc: Global, cause: AppRefusal) -> Result<Bytes, NoMemory>
    ensures { IfOk result (λ line. app_line cause ≡ Some line) }
{
    match cause {
        AppRefusal::Page { place, kind } => {
            let word = format!(in alloc; "{kind}")?;
            page_line(alloc, word.as_bytes(), place)
        }
        AppRefusal::Lex {
            script,
            place,
            kind,
        } => {
            let word = format!(in alloc; "{kind}")?;
            script_line(alloc, script, word.as_bytes(), place)
        }
        AppRefusal::Parse {
            script,
            place,
            kind,
        } => {
            let word = format!(in alloc; "{kind}")?;
            script_line(alloc, script, word.as_bytes(), place)
        }
        AppRefusal::Early {
            script,
            place,
            kind,
        } => {
            let word = format!(in alloc; "{kind}")?;
            script_line(alloc, script, word.as_bytes(), place)
        }
        AppRefusal::Manifest(kind) => {
            let word = format!(in alloc; "{kind}")?;
            manifest_line(alloc, word.as_bytes())
        }
        AppRefusal::LimitsTooLarge => manifest_line(alloc, b"LimitsTooLarge"),
        AppRefusal::Memory => Err(NoMemory),
    }
}

impl Refusal {
    /// The line that says so; want of memory has none.
    pub fn line(self, alloc: Global) -> Result<Bytes, NoMemory>
        ensures { IfOk result (λ line. refusal_line self ≡ Some line) }
    {
        match self {
            Refusal::TooLong(file) => too_long_line(alloc, file.word()),
            Refusal::Application(cause) => app_line(alloc, cause),
            Refusal::Trace(line) => trace_line(alloc, line),
            Refusal::Gestures(line) => gestures_line(alloc, line),
            Refusal::Memory => Err(NoMemory),
        }
    }
}
