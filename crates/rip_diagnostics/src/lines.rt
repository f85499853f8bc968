use crate::cause::LineCause;
use crate::page::PageFile;
use crate::sheet::{Severity, Sheet};
use crate::table::line_message;
use crate::tags::spelled;
use crate::word::{front, rest};
use rip_base::{NoMemory, NodeKind, Page, PageNode, Writer, is_ascii};
use rip_html::read_page;
use rip_trace::{Gestures, TraceRefusal, read_gestures, read_trace};
use rip_wire::Gesture;
use std::alloc::Global;

/// The place of a line, counted from 1, where lines end in LF.
pub fn line_place(bytes: &[u8], line: u64) -> usize {
    let mut left = line.saturating_sub(1);
    for (place, byte) in bytes.iter().enumerate() {
        if left == 0 {
            return place;
        }
        if *byte == b'\n' {
            left = left.saturating_sub(1);
        }
    }
    bytes.len()
}

/// How many bytes a line has.
fn line_count(bytes: &[u8], place: usize) -> usize {
    rest(bytes, place)
        .iter()
        .take_while(|byte| **byte != b'\n')
        .count()
}

/// Says which line is none of a trace, if one is.
pub fn put_trace(alloc: Global, sheet: &mut Sheet, file: PageFile<'_>) -> Result<(), NoMemory> {
    match read_trace(alloc, file.bytes) {
        Ok(_) => Ok(()),
        Err(TraceRefusal::Memory) => Err(NoMemory),
        Err(TraceRefusal::Line(line)) => put_line(sheet, file, LineCause::Trace, line),
    }
}

/// Says what is wrong with a line.
fn put_line(
    sheet: &mut Sheet,
    file: PageFile<'_>,
    cause: LineCause,
    line: u64,
) -> Result<(), NoMemory> {
    let place = line_place(file.bytes, line);
    let at = file.at(place, line_count(file.bytes, place));
    sheet.put(Severity::Error, line_message(cause), b"", at)?;
    sheet.end()
}

/// Says which line of gestures is refused: the first that is none; or else, where the run was refused for one, this line.
pub fn put_gestures(
    alloc: Global,
    sheet: &mut Sheet,
    file: PageFile<'_>,
    page: &[u8],
    refused: Option<u64>,
) -> Result<(), NoMemory> {
    let gestures = match read_gestures(alloc, file.bytes) {
        Ok(gestures) => gestures,
        Err(TraceRefusal::Memory) => return Err(NoMemory),
        Err(TraceRefusal::Line(line)) => {
            return put_line(sheet, file, LineCause::GestureSpelling, line);
        }
    };
    let Some(line) = refused else {
        return Ok(());
    };
    let Ok(page) = read_page(alloc, page) else {
        return Ok(());
    };
    put_gesture(alloc, sheet, file, &page, &gestures, line)
}

/// Says what stands at the node of the gesture in a line.
fn put_gesture(
    alloc: Global,
    sheet: &mut Sheet,
    file: PageFile<'_>,
    page: &Page,
    gestures: &Gestures,
    line: u64,
) -> Result<(), NoMemory> {
    let node = node_of(gestures, line);
    let place = line_place(file.bytes, line);
    let at = file.at(place, line_count(file.bytes, place));
    match node {
        Some(node) if node < page.count() => {
            sheet.put(Severity::Error, line_message(LineCause::Gesture), b"", at)?;
            let text = node_text(alloc, page.node(node), node)?;
            sheet.put_note(b"note", "as the page is loaded, @", text.as_slice())?;
        }
        _ => sheet.put(
            Severity::Error,
            line_message(LineCause::GestureNode),
            b"",
            at,
        )?,
    }
    sheet.end()
}

/// The node of the gesture in a line.
fn node_of(gestures: &Gestures, line: u64) -> Option<u32> {
    for lined in gestures.as_slice() {
        if lined.line == line {
            return match &lined.gesture {
                Gesture::Event(report) => Some(report.node),
                Gesture::Flush => None,
            };
        }
    }
    None
}

/// What a node is: its number, and its tag with `id` and `type`, or its text.
pub fn node_text(alloc: Global, node: &PageNode, number: u32) -> Result<Writer, NoMemory> {
    let mut out = Writer::new(alloc);
    out.text(b"node ")?;
    out.number(u64::from(number))?;
    out.text(b" is ")?;
    match node.kind {
        NodeKind::Document => out.text(b"the document")?,
        NodeKind::Comment => out.text(b"a comment")?,
        NodeKind::Text => put_text(alloc, &mut out, node)?,
        NodeKind::Element => put_tag(alloc, &mut out, node)?,
    }
    Ok(out)
}

/// Writes the beginning of a text.
fn put_text(alloc: Global, out: &mut Writer, node: &PageNode) -> Result<(), NoMemory> {
    let text = spelled(alloc, node.text.as_slice())?;
    out.text(b"the text `")?;
    out.text(front(text.as_slice(), 30))?;
    out.text(b"`")
}

/// Writes a tag with the attributes that tell it.
fn put_tag(alloc: Global, out: &mut Writer, node: &PageNode) -> Result<(), NoMemory> {
    out.text(b"`<")?;
    out.text(spelled(alloc, node.name.as_slice())?.as_slice())?;
    for attribute in node.attributes.as_slice() {
        let name = attribute.name.as_slice();
        if is_ascii(name, b"id") || is_ascii(name, b"type") || is_ascii(name, b"disabled") {
            out.text(b" ")?;
            out.text(spelled(alloc, name)?.as_slice())?;
            out.text(b"=\"")?;
            out.text(front(spelled(alloc, attribute.value.as_slice())?.as_slice(), 30))?;
            out.text(b"\"")?;
        }
    }
    out.text(b">`")
}
