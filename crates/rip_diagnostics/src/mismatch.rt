//! A call that was reported and is not the one that the page makes, read off the log's line.

use crate::members::value_end;
use crate::sheet::{Severity, Sheet};
use crate::table::Message;
use crate::word::{front, rest};
use rip_base::NoMemory;
use std::alloc::Global;
use std::io;
use std::io::Write;

/// What is said of such a call.
const CALL: Message = Message {
    what: "session @ has ended: its browser reported a call that the page's script does not make there",
    cure: "either somebody changed the page in the browser, or the page does what a browser does otherwise",
    see: "docs/DEPLOYING.md#what-an-operator-sees",
};

/// A writer that hands all on, and keeps the last line by which a session ended at a false call, and the one by which a file
/// of gestures was refused. What is written at once counts as a line.
#[derive(Drop)]
pub struct Noting<W> {
    writer: W,
    line: Vec<u8>,
}

impl<W> Noting<W> {
    /// A writer over this one, which has kept nothing.
    pub fn new(alloc: Global, writer: W) -> Noting<W> {
        Noting {
            writer,
            line: Vec::new(alloc),
        }
    }

    /// The line that is kept, or nothing.
    pub fn line(&self) -> &[u8] {
        self.line.as_slice()
    }

    /// Keeps the bytes; where memory runs out nothing is kept.
    fn keep(&mut self, bytes: &[u8]) {
        self.line.clear();
        if self.line.extend_from_slice(bytes).is_err() {
            self.line.clear();
        }
    }
}

/// Whether such a line is kept.
fn is_kept(bytes: &[u8]) -> bool {
    bytes.starts_with(b"refused gestures ")
        || bytes.starts_with(b"done ") && word_at(bytes, 4) == b"mismatch".as_slice()
}

/// The word of the bytes with so many spaces before it.
fn word_at(bytes: &[u8], count: usize) -> &[u8] {
    let word = behind_spaces(bytes, count);
    let count = word.iter().take_while(|byte| **byte != b' ').count();
    front(word, count)
}

impl<W: Write> Write for Noting<W> {
    fn write(&mut self, buf: &[u8]) -> io::Result<usize> {
        if is_kept(buf) {
            self.keep(buf);
        }
        self.writer.write(buf)
    }

    fn flush(&mut self) -> io::Result<()> {
        self.writer.flush()
    }
}

/// The bytes behind so many spaces.
fn behind_spaces(bytes: &[u8], count: usize) -> &[u8] {
    let mut left = count;
    for (place, byte) in bytes.iter().enumerate() {
        if left == 0 {
            return rest(bytes, place);
        }
        if *byte == b' ' {
            left = left.saturating_sub(1);
        }
    }
    b""
}

/// How many bytes two texts have in common at their beginning.
fn common_count(one: &[u8], other: &[u8]) -> usize {
    one.iter()
        .zip(other)
        .take_while(|(a, b)| **a == **b)
        .count()
}

/// How many bytes two texts have in common at their end.
fn common_end(one: &[u8], other: &[u8]) -> usize {
    one.iter()
        .rev()
        .zip(other.iter().rev())
        .take_while(|(a, b)| **a == **b)
        .count()
}

/// Says what differs between the call that was reported and the one that is made, by the log's line, if it is one.
pub fn put_mismatch(sheet: &mut Sheet, line: &[u8]) -> Result<(), NoMemory> {
    if !line.starts_with(b"done ") {
        return Ok(());
    }
    let calls = behind_spaces(line, 7);
    let end = value_end(calls);
    let reported = front(calls, end);
    let made = without_line_end(rest(calls, end.saturating_add(1)));
    let before = common_count(reported, made);
    let behind = common_end(rest(reported, before), rest(made, before));
    sheet.put_head(Severity::Error, CALL.what, word_at(line, 2))?;
    sheet.put_call(
        b"reported",
        reported,
        before,
        reported.len().saturating_sub(before).saturating_sub(behind),
    )?;
    sheet.put_call(
        b"made",
        made,
        before,
        made.len().saturating_sub(before).saturating_sub(behind),
    )?;
    sheet.put_note(b"help", CALL.cure, b"")?;
    sheet.put_note(b"see", CALL.see, b"")?;
    sheet.end()
}

/// The bytes without a line feed at their end.
fn without_line_end(bytes: &[u8]) -> &[u8] {
    match bytes {
        [line @ .., b'\n'] => line,
        _ => bytes,
    }
}
