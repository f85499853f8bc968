use crate::cause::LineCause;
use crate::judged::{ScriptText, Scripts, Trouble, tree_of};
use crate::lines::{put_gestures, put_trace};
use crate::manifest::put_manifest;
use crate::mending::put_mendings;
use crate::mismatch::put_mismatch;
use crate::page::{PageFile, put_not_utf8, put_page_refusal};
use crate::sheet::{Severity, Sheet};
use crate::table::line_message;
use crate::tags::{scripts_in, width_of};
use rip_base::{Bytes, List, NoMemory, TextError, Units};
use rip_early::{EarlyRefusal, check};
use rip_html::read_page;
use rip_markup::{PageRefusal, PageText, Placed, Token, read_text, tokens};
use rip_outer::{Files, FilesError};
use rip_tree::Tree;
use rip_words::numerals::read_number;
use rip_words::{Command, command_of};
use std::alloc::Global;
use std::str;

/// What a person wants to be told.
#[derive(Clone, Copy, Debug, PartialEq, Eq)]
pub struct Wishes {
    /// Whether marks of colour are written.
    pub is_coloured: bool,
    /// Whether more than the first refusal is told.
    pub shows_all: bool,
}

/// A file that was read, or is too long.
#[derive(Debug, Drop)]
enum Content {
    Bytes(Bytes),
    TooLong,
    /// It could not be read now.
    Missing,
}

/// Reads a file.
fn content_of<F: Files>(alloc: Global, files: &mut F, name: &str) -> Result<Content, NoMemory> {
    match files.read_all(alloc, name) {
        Ok(bytes) => Ok(Content::Bytes(bytes)),
        Err(FilesError::TooLong) => Ok(Content::TooLong),
        Err(FilesError::Failed) => Ok(Content::Missing),
        Err(FilesError::Memory) => Err(NoMemory),
    }
}

/// What the bytes are; a file that is too long is told of.
fn bytes_of<'a>(
    sheet: &mut Sheet,
    file: &str,
    content: &'a Content,
) -> Result<Option<&'a [u8]>, NoMemory> {
    match content {
        Content::Bytes(bytes) => Ok(Some(bytes.as_slice())),
        Content::TooLong => {
            sheet.put_plain(Severity::Error, line_message(LineCause::TooLong), file)?;
            sheet.end()?;
            Ok(None)
        }
        Content::Missing => Ok(None),
    }
}

/// Says why a page or its scripts are refused, if they are; or else, where that is wanted, what a browser mends.
fn put_page(
    alloc: Global,
    sheet: &mut Sheet,
    page: PageFile<'_>,
    shows_all: bool,
    is_accepted: bool,
) -> Result<(), NoMemory> {
    let text = match read_text(alloc, page.bytes) {
        Ok(text) => text,
        Err(PageRefusal::At { place, .. }) => return put_not_utf8(sheet, page, place),
        Err(PageRefusal::Memory) => return Err(NoMemory),
    };
    let list = tokens(alloc, text.units.as_slice())?;
    if is_accepted {
        return put_mendings(alloc, sheet, page, &text, list.as_slice());
    }
    match read_page(alloc, page.bytes) {
        Ok(_) => {}
        Err(PageRefusal::Memory) => return Err(NoMemory),
        Err(PageRefusal::At { place, kind }) => {
            put_page_refusal(alloc, sheet, page, &text, list.as_slice(), place, kind)?;
            if !shows_all {
                return Ok(());
            }
        }
    }
    let parts = scripts_in(alloc, list.as_slice())?;
    let scripts = Scripts {
        page,
        text: &text,
        parts: parts.as_slice(),
        is_whole: ends_whole(list.as_slice()),
        shows_all,
    };
    scripts.put_refusals(alloc, sheet)
}

/// Whether the tokens are those of a whole page.
fn ends_whole(tokens: &[Placed]) -> bool {
    match tokens {
        [.., last] => matches!(last.token, Token::End),
        [] => false,
    }
}

/// A page and its manifest: their names, and what they hold.
#[derive(Clone, Copy)]
struct Both<'a> {
    page: PageFile<'a>,
    app: PageFile<'a>,
}

/// Says why a page, its scripts or its manifest are refused, if they are.
fn put_application(
    alloc: Global,
    sheet: &mut Sheet,
    both: Both<'_>,
    shows_all: bool,
) -> Result<(), NoMemory> {
    put_page(alloc, sheet, both.page, shows_all, false)?;
    if shows_all || sheet.count() == 0 {
        put_manifest(alloc, sheet, both.app)?;
    }
    Ok(())
}

/// The third file of a run.
#[derive(Clone, Copy)]
enum Third<'a> {
    Nothing,
    Trace(&'a str),
    Gestures(&'a str),
}

/// Says what is wrong with the files of a run that was refused.
fn put_files<F: Files>(
    alloc: Global,
    sheet: &mut Sheet,
    files: &mut F,
    names: (&str, &str),
    third: Third<'_>,
    noted: &[u8],
    shows_all: bool,
) -> Result<(), NoMemory> {
    let (page_name, app_name) = names;
    let page = content_of(alloc, files, page_name)?;
    let app = content_of(alloc, files, app_name)?;
    let last = match third {
        Third::Nothing => Content::Missing,
        Third::Trace(name) | Third::Gestures(name) => content_of(alloc, files, name)?,
    };
    let page_bytes = bytes_of(sheet, page_name, &page)?;
    let app_bytes = bytes_of(sheet, app_name, &app)?;
    let last_bytes = match third {
        Third::Nothing => None,
        Third::Trace(name) | Third::Gestures(name) => bytes_of(sheet, name, &last)?,
    };
    if sheet.count() > 0 {
        return Ok(());
    }
    let (Some(page_bytes), Some(app_bytes)) = (page_bytes, app_bytes) else {
        return Ok(());
    };
    let both = Both {
        page: PageFile {
            file: page_name,
            bytes: page_bytes,
        },
        app: PageFile {
            file: app_name,
            bytes: app_bytes,
        },
    };
    put_application(alloc, sheet, both, shows_all)?;
    match last_bytes {
        Some(bytes) if shows_all || sheet.count() == 0 => {
            put_third(alloc, sheet, both, third, bytes, noted)
        }
        _ => Ok(()),
    }
}

/// Says what is wrong with the third file of a run.
fn put_third(
    alloc: Global,
    sheet: &mut Sheet,
    both: Both<'_>,
    third: Third<'_>,
    bytes: &[u8],
    noted: &[u8],
) -> Result<(), NoMemory> {
    match third {
        Third::Nothing => Ok(()),
        Third::Trace(file) => put_trace(alloc, sheet, PageFile { file, bytes }),
        Third::Gestures(file) => {
            let line = refused_line(noted);
            put_gestures(
                alloc,
                sheet,
                PageFile { file, bytes },
                both.page.bytes,
                line,
            )
        }
    }
}

/// The line that `refused gestures LINE` names.
fn refused_line(noted: &[u8]) -> Option<u64> {
    match noted.strip_prefix(b"refused gestures ") {
        Some([digits @ .., b'\n']) => read_number(digits),
        _ => None,
    }
}

/// Says what a browser mends of a page that is accepted.
fn put_accepted<F: Files>(
    alloc: Global,
    sheet: &mut Sheet,
    files: &mut F,
    name: &str,
) -> Result<(), NoMemory> {
    let content = content_of(alloc, files, name)?;
    match bytes_of(sheet, name, &content)? {
        Some(bytes) => put_page(alloc, sheet, PageFile { file: name, bytes }, false, true),
        None => Ok(()),
    }
}

/// What is said, for a person, of a run of `ripley` with these words, whose files are read again: why they are refused, where
/// the run was; or else of `check` what a browser mends of the page, and of `replay` the call by which the last session ended
/// that reported a false one. What was noted is the line that [`crate::Noting`] kept of the run.
pub fn explain<F: Files>(
    alloc: Global,
    words: &[String],
    files: &mut F,
    is_refused: bool,
    noted: &[u8],
    wishes: Wishes,
) -> Result<Bytes, NoMemory> {
    let mut sheet = Sheet::new(alloc, wishes.is_coloured);
    let all = wishes.shows_all;
    match command_of(words) {
        Some(Command::Check { page, .. }) if !is_refused => {
            put_accepted(alloc, &mut sheet, files, page)?;
        }
        Some(Command::Replay { .. }) if !is_refused => put_mismatch(&mut sheet, noted)?,
        Some(Command::Check { page, app }) => {
            put_files(
                alloc,
                &mut sheet,
                files,
                (page, app),
                Third::Nothing,
                noted,
                all,
            )?;
        }
        Some(Command::Serve { page, app, .. }) if is_refused => {
            put_files(
                alloc,
                &mut sheet,
                files,
                (page, app),
                Third::Nothing,
                noted,
                all,
            )?;
        }
        Some(
            Command::Replay {
                page,
                app,
                trace,
                ..
            },
        ) => {
            put_files(
                alloc,
                &mut sheet,
                files,
                (page, app),
                Third::Trace(trace),
                noted,
                all,
            )?;
        }
        Some(
            Command::Drive {
                page,
                app,
                gestures,
            },
        ) if is_refused => {
            let third = Third::Gestures(gestures);
            put_files(alloc, &mut sheet, files, (page, app), third, noted, all)?;
        }
        _ => {}
    }
    Ok(sheet.into_bytes())
}

/// What is said, for a person, of a run of `script` with these words that was refused.
pub fn explain_script<F: Files>(
    alloc: Global,
    words: &[String],
    files: &mut F,
    wishes: Wishes,
) -> Result<Bytes, NoMemory> {
    let mut sheet = Sheet::new(alloc, wishes.is_coloured);
    if let [word, file, ..] = words {
        let content = content_of(alloc, files, file.as_str())?;
        if let Some(bytes) = bytes_of(&mut sheet, file.as_str(), &content)? {
            let script = ScriptText {
                file: file.as_str(),
                bytes,
                start: 0,
                number: None,
            };
            put_script(alloc, &mut sheet, script, word.as_str())?;
        }
    }
    Ok(sheet.into_bytes())
}

/// Says why a script alone is refused.
fn put_script(
    alloc: Global,
    sheet: &mut Sheet,
    script: ScriptText<'_>,
    word: &str,
) -> Result<(), NoMemory> {
    let units = match Units::from_utf8(alloc, script.bytes) {
        Ok(units) => units,
        Err(TextError::Memory) => return Err(NoMemory),
        Err(_) => return put_no_text(sheet, script),
    };
    let trouble = match tree_of(alloc, units.as_slice()) {
        Ok(tree) => return put_program(alloc, sheet, script, units.as_slice(), tree, word),
        Err(trouble) => trouble,
    };
    match trouble {
        Trouble::Memory => Err(NoMemory),
        Trouble::Tree(..) if word == "tokens" => Ok(()),
        Trouble::Tokens(_, place) | Trouble::Tree(_, place) => {
            script.put_trouble(sheet, trouble, byte_of(units.as_slice(), place))
        }
    }
}

/// Says where the bytes are no UTF-8.
fn put_no_text(sheet: &mut Sheet, script: ScriptText<'_>) -> Result<(), NoMemory> {
    let place = match str::from_utf8(script.bytes) {
        Ok(_) => 0,
        Err(error) => error.valid_up_to(),
    };
    let file = PageFile {
        file: script.file,
        bytes: script.bytes,
    };
    let message = line_message(LineCause::ScriptNotUtf8);
    sheet.put(Severity::Error, message, b"", file.at(place, 1))?;
    sheet.end()
}

/// Says which names or jumps of a script alone are refused, if they are judged and some are.
fn put_program(
    alloc: Global,
    sheet: &mut Sheet,
    script: ScriptText<'_>,
    units: &[u16],
    tree: Tree,
    word: &str,
) -> Result<(), NoMemory> {
    if word != "run" {
        return Ok(());
    }
    let mut trees = Vec::new(alloc);
    trees.push(tree)?;
    match check(alloc, &List::from_vec(trees)) {
        Ok(_) => Ok(()),
        Err(EarlyRefusal::Memory) => Err(NoMemory),
        Err(EarlyRefusal::At { place, kind, .. }) => {
            script.put_mistake(sheet, kind, byte_of(units, place))
        }
    }
}

/// How many bytes stand before a place of a text.
fn byte_of(units: &[u16], place: u32) -> usize {
    let mut count = 0usize;
    for unit in units.iter().take(place as usize) {
        count = count.saturating_add(width_of(*unit));
    }
    count
}
