use crate::spot::{Spot, begins_character, line_of, spot_of};
use crate::table::Message;
use crate::word::{front, rest};
use rip_base::{Bytes, NoMemory, Writer};
use std::alloc::Global;
use std::str;

/// How wide a line is shown at most, and how many bytes of a longer one stand before the place.
const WIDTH: usize = 160;

const BEFORE: usize = 60;

/// How wide the names of calls are.
const CALL_WIDTH: usize = 8;

/// How many bytes of a word are repeated in a sentence.
const LONGEST_WORD: usize = 60;

/// What a diagnostic points at.
#[derive(Clone, Copy)]
pub struct Pointer<'a> {
    /// The name of the file.
    pub file: &'a str,
    /// Its bytes.
    pub bytes: &'a [u8],
    /// The place, in bytes from 0.
    pub place: usize,
    /// How many bytes are marked.
    pub count: usize,
    /// The number of the script at whose text the place is, and the place at which that text begins.
    pub script: Option<(u32, usize)>,
}

/// How bad it is.
#[derive(Clone, Copy, Debug, PartialEq, Eq)]
pub enum Severity {
    Error,
    Warning,
}

/// Diagnostics that are being written.
#[derive(Drop)]
pub struct Sheet {
    alloc: Global,
    out: Writer,
    is_coloured: bool,
    count: u64,
}

/// The bytes behind a mark of UTF-8, if there is one.
fn unmarked(bytes: &[u8]) -> &[u8] {
    match bytes {
        [0xEF, 0xBB, 0xBF, text @ ..] => text,
        _ => bytes,
    }
}

/// The last place up to this one at which a character begins.
fn floor(bytes: &[u8], place: usize) -> usize {
    let mut low = place;
    for _ in 0..4u8 {
        match bytes.get(low) {
            Some(byte) if !begins_character(*byte) && low > 0 => low -= 1,
            _ => return low,
        }
    }
    low
}

/// How many characters begin in the bytes.
fn character_count(bytes: &[u8]) -> usize {
    bytes.iter().filter(|byte| begins_character(**byte)).count()
}

impl Sheet {
    /// A sheet on which nothing is written.
    pub fn new(alloc: Global, is_coloured: bool) -> Sheet {
        Sheet {
            alloc,
            out: Writer::new(alloc),
            is_coloured,
            count: 0,
        }
    }

    /// What is written.
    pub fn into_bytes(self) -> Bytes {
        self.out.into_bytes()
    }

    /// How many diagnostics are written.
    pub fn count(&self) -> u64 {
        self.count
    }

    /// Writes a diagnostic, in whose texts `@` stands for the word.
    pub fn put(
        &mut self,
        severity: Severity,
        message: Message,
        word: &[u8],
        at: Pointer<'_>,
    ) -> Result<(), NoMemory> {
        self.put_head(severity, message.what, word)?;
        self.put_source(at)?;
        self.put_note(b"help", message.cure, word)?;
        self.put_note(b"see", message.see, word)
    }

    /// Ends a diagnostic.
    pub fn end(&mut self) -> Result<(), NoMemory> {
        self.out.text(b"\n")
    }

    /// Writes at which line something else begins.
    pub fn put_origin(&mut self, word: &[u8], at: Pointer<'_>) -> Result<(), NoMemory> {
        let text = unmarked(at.bytes);
        let mark = at.bytes.len().saturating_sub(text.len());
        let spot = spot_of(text, at.place.saturating_sub(mark).min(text.len()));
        self.paint(b"\x1b[1;34m")?;
        self.out.text(b"  = ")?;
        self.paint(b"\x1b[0;1m")?;
        self.out.text(b"note")?;
        self.paint(b"\x1b[0m")?;
        self.out.text(b": `<")?;
        self.put_clean(front(word, floor(word, LONGEST_WORD)))?;
        self.out.text(b">` begins at ")?;
        self.out.text(at.file.as_bytes())?;
        self.out.text(b":")?;
        self.out.number(spot.line as u64)?;
        self.out.text(b":")?;
        self.out.number(spot.column as u64)?;
        self.out.text(b"\n")
    }

    /// Writes a sentence with no place.
    pub fn put_plain(
        &mut self,
        severity: Severity,
        message: Message,
        file: &str,
    ) -> Result<(), NoMemory> {
        self.put_head(severity, message.what, b"")?;
        self.out.text(b" --> ")?;
        self.out.text(file.as_bytes())?;
        self.out.text(b"\n")?;
        self.put_note(b"help", message.cure, b"")?;
        self.put_note(b"see", message.see, b"")
    }

    /// Writes what is wrong.
    pub fn put_head(
        &mut self,
        severity: Severity,
        what: &str,
        word: &[u8],
    ) -> Result<(), NoMemory> {
        self.count = self.count.saturating_add(1);
        match severity {
            Severity::Error => {
                self.paint(b"\x1b[1;31m")?;
                self.out.text(b"error")?;
            }
            Severity::Warning => {
                self.paint(b"\x1b[1;33m")?;
                self.out.text(b"warning")?;
            }
        }
        self.paint(b"\x1b[0;1m")?;
        self.out.text(b": ")?;
        self.fill(what, word)?;
        self.paint(b"\x1b[0m")?;
        self.out.text(b"\n")
    }

    /// Writes a note below the source line.
    pub fn put_note(&mut self, name: &[u8], text: &str, word: &[u8]) -> Result<(), NoMemory> {
        self.paint(b"\x1b[1;34m")?;
        self.out.text(b"  = ")?;
        self.paint(b"\x1b[0;1m")?;
        self.out.text(name)?;
        self.paint(b"\x1b[0m")?;
        self.out.text(b": ")?;
        self.fill(text, word)?;
        self.out.text(b"\n")
    }

    /// Writes a call, and marks below what differs in it.
    pub fn put_call(
        &mut self,
        name: &[u8],
        call: &[u8],
        at: usize,
        count: usize,
    ) -> Result<(), NoMemory> {
        self.put_gutter(name, CALL_WIDTH)?;
        self.put_line(call, at.min(call.len()), count, CALL_WIDTH)
    }

    /// Writes where the place is, its line, and the marks below it.
    fn put_source(&mut self, at: Pointer<'_>) -> Result<(), NoMemory> {
        let text = unmarked(at.bytes);
        let mark = at.bytes.len().saturating_sub(text.len());
        let place = at.place.saturating_sub(mark).min(text.len());
        let spot = spot_of(text, place);
        self.put_where(at, text, mark, spot)?;
        let digits = self.digits_of(spot.line as u64)?;
        self.put_gutter(b"", digits.as_slice().len())?;
        self.out.text(b"\n")?;
        self.put_gutter(digits.as_slice(), digits.as_slice().len())?;
        self.put_line(
            line_of(text, spot),
            place.saturating_sub(spot.start),
            at.count,
            digits.as_slice().len(),
        )
    }

    /// Writes the file, the line and the column, and the place within a script.
    fn put_where(
        &mut self,
        at: Pointer<'_>,
        text: &[u8],
        mark: usize,
        spot: Spot,
    ) -> Result<(), NoMemory> {
        self.paint(b"\x1b[1;34m")?;
        self.out.text(b" --> ")?;
        self.paint(b"\x1b[0m")?;
        self.out.text(at.file.as_bytes())?;
        self.out.text(b":")?;
        self.out.number(spot.line as u64)?;
        self.out.text(b":")?;
        self.out.number(spot.column as u64)?;
        if let Some((number, start)) = at.script {
            let first = spot_of(text, start.saturating_sub(mark).min(text.len()));
            self.out.text(b" (script ")?;
            self.out.number(u64::from(number))?;
            self.out.text(b", line ")?;
            self.out.number((spot.line.saturating_sub(first.line) as u64).saturating_add(1))?;
            self.out.text(b")")?;
        }
        self.out.text(b"\n")
    }

    /// The numeral of a line's number.
    fn digits_of(&self, number: u64) -> Result<Bytes, NoMemory> {
        let mut digits = Writer::new(self.alloc);
        digits.number(number)?;
        Ok(digits.into_bytes())
    }

    /// Writes what stands left of a source line.
    fn put_gutter(&mut self, number: &[u8], width: usize) -> Result<(), NoMemory> {
        self.paint(b"\x1b[1;34m")?;
        self.out.text(number)?;
        for _ in number.len()..width {
            self.out.text(b" ")?;
        }
        self.out.text(b" | ")?;
        self.paint(b"\x1b[0m")
    }

    /// Writes a line, or of a long one the part round the place, and the marks below it.
    fn put_line(
        &mut self,
        line: &[u8],
        at: usize,
        count: usize,
        width: usize,
    ) -> Result<(), NoMemory> {
        let from = if line.len() <= WIDTH {
            0
        } else {
            floor(line, at.saturating_sub(BEFORE))
        };
        let shown = rest(line, from);
        let part = front(shown, floor(shown, WIDTH));
        let cut = from > 0;
        if cut {
            self.out.text(b"..")?;
        }
        self.put_clean(part)?;
        if part.len() < shown.len() {
            self.out.text(b"..")?;
        }
        self.out.text(b"\n")?;
        self.put_gutter(b"", width)?;
        if cut {
            self.out.text(b"  ")?;
        }
        self.put_space(front(shown, at.saturating_sub(from)))?;
        self.put_marks(front(rest(part, at.saturating_sub(from)), count))?;
        self.out.text(b"\n")
    }

    /// Writes as much space as the bytes take, tabs as tabs.
    fn put_space(&mut self, bytes: &[u8]) -> Result<(), NoMemory> {
        for byte in bytes {
            if *byte == b'\t' {
                self.out.text(b"\t")?;
            } else if begins_character(*byte) {
                self.out.text(b" ")?;
            }
        }
        Ok(())
    }

    /// Writes a mark for each character, and one at least.
    fn put_marks(&mut self, bytes: &[u8]) -> Result<(), NoMemory> {
        self.paint(b"\x1b[1;31m")?;
        self.out.text(b"^")?;
        for _ in 1..character_count(bytes) {
            self.out.text(b"^")?;
        }
        self.paint(b"\x1b[0m")
    }

    /// Writes a text in which `@` stands for a word.
    fn fill(&mut self, text: &str, word: &[u8]) -> Result<(), NoMemory> {
        for byte in text.as_bytes() {
            if *byte == b'@' {
                self.put_clean(front(word, floor(word, LONGEST_WORD)))?;
            } else {
                self.out.text(&[*byte])?;
            }
        }
        Ok(())
    }

    /// Writes bytes of a file: what a terminal would obey, and what is no UTF-8, is written as `?`.
    fn put_clean(&mut self, bytes: &[u8]) -> Result<(), NoMemory> {
        let is_text = str::from_utf8(bytes).is_ok();
        for byte in bytes {
            self.out.text(&[clean(is_text, *byte)])?;
        }
        Ok(())
    }

    /// Writes a mark of colour, where colours are wanted.
    fn paint(&mut self, colour: &[u8]) -> Result<(), NoMemory> {
        if self.is_coloured {
            self.out.text(colour)?;
        }
        Ok(())
    }
}

/// The byte that is written for a byte of a file.
fn clean(is_text: bool, byte: u8) -> u8 {
    match byte {
        b'\t' => byte,
        0..=0x1F | 0x7F => b'?',
        0x80..=0xFF if !is_text => b'?',
        _ => byte,
    }
}
