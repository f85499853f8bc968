use crate::cause::ScriptCause;
use crate::page::{PageFile, byte_at};
use crate::script::{name_cause, token_cause, tree_cause};
use crate::sheet::{Pointer, Severity, Sheet};
use crate::table::script_message;
use crate::tags::ScriptPart;
use crate::word::{front, rest, word_in};
use rip_base::{List, NoMemory};
use rip_early::{EarlyKind, EarlyRefusal, check};
use rip_lexer::{LexKind, LexRefusal, tokens};
use rip_markup::PageText;
use rip_parser::{ParseKind, ParseRefusal, parse};
use rip_tree::{Tree, Trees};
use std::alloc::Global;

/// Why a script has no tree, with the place in its units.
#[derive(Clone, Copy, Debug, PartialEq, Eq)]
pub enum Trouble {
    Tokens(LexKind, u32),
    Tree(ParseKind, u32),
    Memory,
}

/// The tree of a script.
pub fn tree_of(alloc: Global, units: &[u16]) -> Result<Tree, Trouble> {
    let tokens = match tokens(alloc, units) {
        Ok(tokens) => tokens,
        Err(LexRefusal::At { place, kind }) => return Err(Trouble::Tokens(kind, place)),
        Err(LexRefusal::Memory) => return Err(Trouble::Memory),
    };
    match parse(alloc, units, tokens.as_slice()) {
        Ok(tree) => Ok(tree),
        Err(ParseRefusal::At { place, kind }) => Err(Trouble::Tree(kind, place)),
        Err(ParseRefusal::Memory) => Err(Trouble::Memory),
    }
}

/// The text of a script within its file.
#[derive(Clone, Copy)]
pub struct ScriptText<'a> {
    pub file: &'a str,
    pub bytes: &'a [u8],
    /// The byte at which its text begins.
    pub start: usize,
    /// Its number, from 1; none where the file is the script.
    pub number: Option<u32>,
}

impl<'a> ScriptText<'a> {
    /// Says why the script has no tree, of which the refused place is at this byte.
    pub fn put_trouble(
        self,
        sheet: &mut Sheet,
        trouble: Trouble,
        byte: usize,
    ) -> Result<(), NoMemory> {
        let before = rest(front(self.bytes, byte), self.start);
        let after = rest(self.bytes, byte);
        match trouble {
            Trouble::Tokens(kind, _) => self.put(sheet, token_cause(kind, after), byte),
            Trouble::Tree(kind, _) => self.put(sheet, tree_cause(kind, before, after), byte),
            Trouble::Memory => Err(NoMemory),
        }
    }

    /// Says why the names or jumps of the script are refused, at this byte.
    pub fn put_mistake(
        self,
        sheet: &mut Sheet,
        kind: EarlyKind,
        byte: usize,
    ) -> Result<(), NoMemory> {
        let word = word_in(rest(self.bytes, byte));
        self.put(sheet, name_cause(kind, word), byte)
    }

    /// Says what stands at this byte.
    fn put(self, sheet: &mut Sheet, cause: ScriptCause, byte: usize) -> Result<(), NoMemory> {
        let word = word_in(rest(self.bytes, byte));
        let at = Pointer {
            file: self.file,
            bytes: self.bytes,
            place: byte,
            count: word.len(),
            script: self.number.map(|number| (number, self.start)),
        };
        sheet.put(Severity::Error, script_message(cause), word, at)?;
        sheet.end()
    }
}

/// The scripts of a page.
#[derive(Clone, Copy)]
pub struct Scripts<'a> {
    pub page: PageFile<'a>,
    pub text: &'a PageText,
    pub parts: &'a [ScriptPart<'a>],
    /// Whether these are all scripts of the page.
    pub is_whole: bool,
    /// Whether more than the first refusal is wanted.
    pub shows_all: bool,
}

impl<'a> Scripts<'a> {
    /// The text of a script, and the byte of a place in it.
    fn placed(self, index: usize, place: u32) -> Option<(ScriptText<'a>, usize)> {
        let part = self.parts.get(index)?;
        let text = ScriptText {
            file: self.page.file,
            bytes: self.page.bytes,
            start: byte_at(self.text, part.place),
            number: Some(number_of(index)),
        };
        Some((
            text,
            byte_at(self.text, part.place.saturating_add(place as usize)),
        ))
    }

    /// Says what is refused of the scripts: the first of all, or of each the first.
    pub fn put_refusals(self, alloc: Global, sheet: &mut Sheet) -> Result<(), NoMemory> {
        let mut trees = Vec::new(alloc);
        for (index, part) in self.parts.iter().enumerate() {
            match tree_of(alloc, part.units) {
                Ok(tree) => trees.push(tree)?,
                Err(trouble) => self.put_trouble(sheet, index, trouble)?,
            }
            if sheet.count() > 0 && !self.shows_all {
                return Ok(());
            }
        }
        if !self.is_whole || trees.len() < self.parts.len() {
            return Ok(());
        }
        self.put_mistakes(alloc, sheet, List::from_vec(trees))
    }

    /// Says why a script has no tree.
    fn put_trouble(
        self,
        sheet: &mut Sheet,
        index: usize,
        trouble: Trouble,
    ) -> Result<(), NoMemory> {
        let place = match trouble {
            Trouble::Tokens(_, place) | Trouble::Tree(_, place) => place,
            Trouble::Memory => return Err(NoMemory),
        };
        match self.placed(index, place) {
            Some((text, byte)) => text.put_trouble(sheet, trouble, byte),
            None => Ok(()),
        }
    }

    /// Says which names or jumps of the scripts are refused.
    fn put_mistakes(self, alloc: Global, sheet: &mut Sheet, trees: Trees) -> Result<(), NoMemory> {
        let mut trees = trees;
        for index in 0..trees.len() {
            trees = first_moved(trees, index);
            let found = check(alloc, &trees);
            trees = first_moved(trees, index);
            match found {
                Ok(_) => return Ok(()),
                Err(EarlyRefusal::Memory) => return Err(NoMemory),
                Err(
                    EarlyRefusal::At {
                        script: 1,
                        place,
                        kind,
                    },
                ) => {
                    if let Some((text, byte)) = self.placed(index, place) {
                        text.put_mistake(sheet, kind, byte)?;
                    }
                    if !self.shows_all {
                        return Ok(());
                    }
                }
                Err(EarlyRefusal::At { .. }) => {}
            }
        }
        Ok(())
    }
}

/// The number of the script at this place, from 1.
fn number_of(index: usize) -> u32 {
    match u32::try_from(index) {
        Ok(number) => number.saturating_add(1),
        Err(_) => u32::MAX,
    }
}

/// The trees, of which the first and this one have changed their places.
fn first_moved(trees: Trees, index: usize) -> Trees {
    let mut trees = trees.into_vec();
    if index < trees.len() {
        trees.swap(0, index);
    }
    List::from_vec(trees)
}
