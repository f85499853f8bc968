use rip_base::{NoMemory, Units, Writer, is_ascii};
use rip_markup::{Placed, StartTag, Token, is_void};
use std::alloc::Global;

/// A part of a page.
#[derive(Clone, Copy, Debug, PartialEq, Eq)]
pub enum Part {
    Beginning,
    InHtml,
    InHead,
    BehindHead,
    InBody,
    BehindBody,
    Ended,
}

/// An element that is open: its name, and the place of its start tag in the text of the page.
#[derive(Clone, Copy)]
pub struct Opened<'a> {
    pub name: &'a [u16],
    pub place: usize,
}

/// What is open at a place of a page.
#[derive(Drop)]
pub struct Open<'a> {
    pub part: Part,
    pub elements: Vec<Opened<'a>>,
}

impl<'a> Open<'a> {
    /// What is open at the beginning of a page.
    pub fn new(alloc: Global) -> Open<'a> {
        Open {
            part: Part::Beginning,
            elements: Vec::new(alloc),
        }
    }

    /// The innermost element.
    pub fn innermost(&self) -> Option<Opened<'a>> {
        self.elements.last().copied()
    }

    /// Goes behind a token.
    pub fn pass(&mut self, placed: &'a Placed) -> Result<(), NoMemory> {
        match &placed.token {
            Token::StartTag(tag) => self.begin(tag, placed.place),
            Token::EndTag(_) => {
                if self.elements.pop().is_none() {
                    self.part = part_ended(self.part);
                }
                Ok(())
            }
            _ => Ok(()),
        }
    }

    /// Goes behind a start tag.
    fn begin(&mut self, tag: &'a StartTag, place: usize) -> Result<(), NoMemory> {
        let name = tag.name.as_slice();
        let part = part_begun(self.part, name);
        if self.elements.is_empty() && part != self.part {
            self.part = part;
        } else if !is_void(name) {
            self.elements.push(Opened { name, place })?;
        }
        Ok(())
    }
}

/// The part behind a start tag of this name.
fn part_begun(part: Part, name: &[u16]) -> Part {
    match part {
        Part::Beginning if is_ascii(name, b"html") => Part::InHtml,
        Part::InHtml if is_ascii(name, b"head") => Part::InHead,
        Part::BehindHead if is_ascii(name, b"body") => Part::InBody,
        _ => part,
    }
}

/// The part behind an end tag at which no element is open.
fn part_ended(part: Part) -> Part {
    match part {
        Part::InHead => Part::BehindHead,
        Part::InBody => Part::BehindBody,
        Part::BehindBody => Part::Ended,
        _ => part,
    }
}

/// What is open at a place of the page's text.
pub fn open_at(alloc: Global, tokens: &[Placed], place: usize) -> Result<Open<'_>, NoMemory> {
    let mut open = Open::new(alloc);
    for placed in tokens {
        if placed.place >= place {
            break;
        }
        open.pass(placed)?;
    }
    Ok(open)
}

/// A script of a page: the place at which its text begins in the text of the page, and its units.
#[derive(Clone, Copy)]
pub struct ScriptPart<'a> {
    pub place: usize,
    pub units: &'a [u16],
}

/// The scripts of a page, in their order.
pub fn scripts_in(alloc: Global, tokens: &[Placed]) -> Result<Vec<ScriptPart<'_>>, NoMemory> {
    let mut scripts = Vec::new(alloc);
    let mut is_script = false;
    for placed in tokens {
        if is_script {
            scripts.push(ScriptPart {
                place: placed.place,
                units: text_of(&placed.token),
            })?;
        }
        is_script = begins_script(&placed.token);
    }
    Ok(scripts)
}

/// The text of a token.
fn text_of(token: &Token) -> &[u16] {
    match token {
        Token::Text(run) => run.units.as_slice(),
        _ => &[],
    }
}

/// Whether a script begins behind the token.
fn begins_script(token: &Token) -> bool {
    match token {
        Token::StartTag(tag) => is_ascii(tag.name.as_slice(), b"script"),
        _ => false,
    }
}

/// The name as bytes; what is no ASCII is `?`.
pub fn spelled(alloc: Global, name: &[u16]) -> Result<Writer, NoMemory> {
    let mut out = Writer::new(alloc);
    for unit in name {
        out.text(&[if *unit < 0x80 { *unit as u8 } else { b'?' }])?;
    }
    Ok(out)
}

/// The place in the page's text at which this byte of the page stands.
pub fn unit_at(raw: &Units, mark: usize, byte: usize) -> usize {
    let mut left = byte.saturating_sub(mark);
    let mut count = 0usize;
    let mut is_behind_cr = false;
    for unit in raw.as_slice() {
        if left == 0 {
            return count;
        }
        if is_behind_cr && *unit == 0x0A {
            left = left.saturating_sub(1);
            is_behind_cr = false;
        } else {
            left = left.saturating_sub(width_of(*unit));
            count = count.saturating_add(1);
            is_behind_cr = *unit == 0x0D;
        }
    }
    count
}

/// How many bytes a unit has in UTF-8 (RFC 3629 section 3).
pub fn width_of(unit: u16) -> usize {
    match unit {
        0..=0x7F => 1,
        0x80..=0x7FF | 0xD800..=0xDFFF => 2,
        _ => 3,
    }
}
