//! The nodes of a page by number, for whoever writes gestures.

use crate::tags::spelled;
use rip_base::{
    Bytes, NoMemory, NodeKind, Page, PageKind, PageNode, TextError, Units, Writer, is_ascii,
};
use rip_html::read_page;
use rip_markup::PageRefusal;
use rip_outer::{Files, FilesError, Sink, SinkError};
use std::alloc::Global;

/// How a listing ended.
#[derive(Clone, Copy, Debug, PartialEq, Eq)]
pub enum Listing {
    /// Each node has its line.
    Done,
    /// The page is refused; the line says why.
    Refused,
    /// The file was not read, or the lines not written.
    Outside,
    /// Memory ran out.
    NoMemory,
}

/// The most units of a text that are shown.
const SHOWN: usize = 60;

/// Puts a line for each node of the page in this file: its number, two spaces a level, the name of an element with its
/// `id`, `name`, `type` and `value`, or the beginning of a text. A page that is refused is answered by the line of `check`.
pub fn list_nodes<F: Files, S: Sink>(
    alloc: Global,
    file: &str,
    files: &mut F,
    sink: &mut S,
) -> Listing {
    let bytes = match files.read_all(alloc, file) {
        Ok(bytes) => bytes,
        Err(FilesError::TooLong) => return ended(
            sink.put(b"refused page TooLong\n"),
            Listing::Refused,
        ),
        Err(FilesError::Failed) => return Listing::Outside,
        Err(FilesError::Memory) => return Listing::NoMemory,
    };
    match listed(alloc, bytes.as_slice()) {
        Ok((text, due)) => ended(sink.put(text.as_slice()), due),
        Err(_) => Listing::NoMemory,
    }
}

/// How a listing ended that is written so.
fn ended(put: Result<(), SinkError>, due: Listing) -> Listing {
    match put {
        Ok(()) => due,
        Err(SinkError::Failed) => Listing::Outside,
        Err(SinkError::Memory) => Listing::NoMemory,
    }
}

/// The lines of a page.
fn listed(alloc: Global, bytes: &[u8]) -> Result<(Bytes, Listing), NoMemory> {
    match read_page(alloc, bytes) {
        Ok(page) => Ok((page_lines(alloc, &page)?, Listing::Done)),
        Err(PageRefusal::At { place, kind }) => {
            Ok((refused_line(alloc, place, kind)?, Listing::Refused))
        }
        Err(PageRefusal::Memory) => Err(NoMemory),
    }
}

/// The line for a page that is refused.
fn refused_line(alloc: Global, place: u32, kind: PageKind) -> Result<Bytes, NoMemory> {
    let word = format!(in alloc; "{kind}")?;
    let mut out = Writer::new(alloc);
    out.text(b"refused page ")?;
    out.text(word.as_bytes())?;
    out.text(b" ")?;
    out.number(u64::from(place))?;
    out.text(b"\n")?;
    Ok(out.into_bytes())
}

/// A line for each node.
fn page_lines(alloc: Global, page: &Page) -> Result<Bytes, NoMemory> {
    let mut out = Writer::new(alloc);
    let mut depths: Vec<u32> = Vec::new(alloc);
    for number in 0..page.count() {
        let node = page.node(number);
        let depth = match node.parent {
            Some(parent) => depth_below(depths.as_slice(), parent),
            None => 0,
        };
        depths.push(depth)?;
        out.number(u64::from(number))?;
        out.text(b" ")?;
        for _ in 0..depth {
            out.text(b"  ")?;
        }
        put_node(alloc, &mut out, node)?;
        out.text(b"\n")?;
    }
    Ok(out.into_bytes())
}

/// The depth of a node below this one.
fn depth_below(depths: &[u32], parent: u32) -> u32 {
    match depths.get(parent as usize) {
        Some(depth) => depth.saturating_add(1),
        None => 0,
    }
}

/// Writes what a node is.
fn put_node(alloc: Global, out: &mut Writer, node: &PageNode) -> Result<(), NoMemory> {
    match node.kind {
        NodeKind::Document => out.text(b"#document"),
        NodeKind::Comment => {
            out.text(b"#comment ")?;
            put_quoted(alloc, out, node.text.as_slice())
        }
        NodeKind::Text => {
            out.text(b"#text ")?;
            put_quoted(alloc, out, node.text.as_slice())
        }
        NodeKind::Element => put_element(alloc, out, node),
    }
}

/// Writes the name of an element, and the attributes that tell it.
fn put_element(alloc: Global, out: &mut Writer, node: &PageNode) -> Result<(), NoMemory> {
    put_name(alloc, out, node.name.as_slice())?;
    for attribute in node.attributes.as_slice() {
        let name = attribute.name.as_slice();
        if is_telling(name) {
            out.text(b" ")?;
            put_name(alloc, out, name)?;
            out.text(b"=")?;
            put_quoted(alloc, out, attribute.value.as_slice())?;
        }
    }
    Ok(())
}

/// Writes a name.
fn put_name(alloc: Global, out: &mut Writer, name: &[u16]) -> Result<(), NoMemory> {
    let name = spelled(alloc, name)?;
    out.text(name.as_slice())
}

/// Whether the attribute is shown.
fn is_telling(name: &[u16]) -> bool {
    is_ascii(name, b"id")
        || is_ascii(name, b"name")
        || is_ascii(name, b"type")
        || is_ascii(name, b"value")
        || is_ascii(name, b"disabled")
}

/// Writes a text in quotes; `..` stands for the rest of a long one.
fn put_quoted(alloc: Global, out: &mut Writer, units: &[u16]) -> Result<(), NoMemory> {
    out.text(b"\"")?;
    let shown = match units.get(..SHOWN) {
        Some(shown) => shown,
        None => units,
    };
    match Units::from_slice(alloc, shown)?.to_utf8(alloc) {
        Ok(text) => put_escaped(out, text.as_slice())?,
        Err(TextError::Memory) => return Err(NoMemory),
        Err(_) => {
            let text = spelled(alloc, shown)?;
            put_escaped(out, text.as_slice())?;
        }
    }
    out.text(if shown.len() < units.len() {
        b"\"..".as_slice()
    } else {
        b"\"".as_slice()
    })
}

/// Writes bytes of a text: line ends as `\n`, tabs as `\t`, and other control characters as `?`.
fn put_escaped(out: &mut Writer, bytes: &[u8]) -> Result<(), NoMemory> {
    for byte in bytes {
        match *byte {
            b'\n' => out.text(b"\\n")?,
            b'\t' => out.text(b"\\t")?,
            b'"' => out.text(b"\\\"")?,
            b'\\' => out.text(b"\\\\")?,
            0..=0x1F | 0x7F => out.text(b"?")?,
            _ => out.text(&[*byte])?,
        }
    }
    Ok(())
}
