use crate::cause::PageCause;
use crate::sheet::{Pointer, Severity, Sheet};
use crate::table::page_message;
use crate::tags::{Open, Part, open_at, spelled, unit_at};
use crate::word::{is_in_small, rest, tag_name_in};
use rip_base::{NoMemory, PageKind, is_ascii};
use rip_markup::{PageText, Placed, byte_place};
use std::alloc::Global;

/// A page that is being looked at: the name of its file, and its bytes.
#[derive(Clone, Copy)]
pub struct PageFile<'a> {
    pub file: &'a str,
    pub bytes: &'a [u8],
}

impl<'a> PageFile<'a> {
    /// What a diagnostic of the page points at.
    pub fn at(self, place: usize, count: usize) -> Pointer<'a> {
        Pointer {
            file: self.file,
            bytes: self.bytes,
            place,
            count,
            script: None,
        }
    }
}

/// The byte of the page at a place of its text.
pub fn byte_at(text: &PageText, place: usize) -> usize {
    if text.mark > 3 {
        return 0;
    }
    byte_place(text, place)
}

/// Says why the bytes are no UTF-8.
pub fn put_not_utf8(sheet: &mut Sheet, page: PageFile<'_>, place: u32) -> Result<(), NoMemory> {
    let at = page.at(place as usize, 1);
    sheet.put(Severity::Error, page_message(PageCause::NotUtf8), b"", at)?;
    sheet.end()
}

/// Says why a page is refused, which these tokens are.
pub fn put_page_refusal(
    alloc: Global,
    sheet: &mut Sheet,
    page: PageFile<'_>,
    text: &PageText,
    tokens: &[Placed],
    place: u32,
    kind: PageKind,
) -> Result<(), NoMemory> {
    let after = rest(page.bytes, place as usize);
    let open = open_at(alloc, tokens, unit_at(&text.raw, text.mark, place as usize))?;
    let cause = page_cause(kind, after, &open);
    match open.innermost() {
        Some(element) if names_open(cause) => {
            let name = spelled(alloc, element.name)?;
            let at = page.at(place as usize, tag_count(after));
            sheet.put(Severity::Error, page_message(cause), name.as_slice(), at)?;
            sheet.put_origin(name.as_slice(), page.at(byte_at(text, element.place), 1))?;
        }
        _ => {
            let word = word_of(cause, after, &open);
            let at = page.at(place as usize, tag_count(after));
            sheet.put(Severity::Error, page_message(cause), word, at)?;
        }
    }
    sheet.end()
}

/// Whether a sentence for the cause names the innermost element that is open.
fn names_open(cause: PageCause) -> bool {
    matches!(cause, PageCause::Misnested | PageCause::EndOfPage)
}

/// How many bytes are marked: a tag's name with its `<`, or a word.
fn tag_count(after: &[u8]) -> usize {
    match after {
        [b'<', b'/', name @ ..] => tag_name_in(name).len().saturating_add(2),
        [b'<', b'!', ..] => 2,
        [b'<', name @ ..] => tag_name_in(name).len().saturating_add(1),
        _ => tag_name_in(after).len(),
    }
}

/// The name of the tag that stands at the place.
fn tag_name(after: &[u8]) -> &[u8] {
    match after {
        [b'<', b'/', name @ ..] => tag_name_in(name),
        [b'<', name @ ..] => tag_name_in(name),
        _ => tag_name_in(after),
    }
}

/// What `@` stands for.
fn word_of<'a>(cause: PageCause, after: &'a [u8], open: &Open<'_>) -> &'a [u8] {
    match (cause, open.part) {
        (PageCause::Misnested | PageCause::EndOfPage, Part::InHead) => b"head",
        (PageCause::Misnested | PageCause::EndOfPage, _) => b"body",
        _ => tag_name(after),
    }
}

/// Why a page is refused, where these bytes stand from the place on, and this is open.
fn page_cause(kind: PageKind, after: &[u8], open: &Open<'_>) -> PageCause {
    match kind {
        PageKind::NotUtf8 => PageCause::NotUtf8,
        PageKind::MissingPart => part_cause(open.part),
        PageKind::BadTag => tag_cause(after),
        PageKind::BadAttribute if after.starts_with(b"=") => PageCause::NoName,
        PageKind::BadAttribute => PageCause::Attribute,
        PageKind::DoubleAttribute => PageCause::DoubleAttribute,
        PageKind::BadReference => PageCause::Reference,
        PageKind::OpenComment => PageCause::OpenComment,
        PageKind::Misnested => nesting_cause(after, open),
        PageKind::TextOutside if after.starts_with(b"<") => PageCause::TagBehind,
        PageKind::TextOutside => PageCause::TextOutside,
        PageKind::ScriptNotLast if is_in_small(tag_name(after), b"script") => {
            PageCause::ScriptInside
        }
        PageKind::ScriptNotLast => PageCause::ScriptNotLast,
        PageKind::ExternalScript => PageCause::ExternalScript,
        PageKind::NotInSubset => subset_cause(after, open),
        PageKind::TooNested => PageCause::TooNested,
    }
}

/// Which part of a page is missing.
fn part_cause(part: Part) -> PageCause {
    match part {
        Part::Beginning => PageCause::NoHtml,
        Part::InHtml => PageCause::NoHead,
        Part::BehindHead => PageCause::NoBody,
        Part::InHead | Part::InBody => PageCause::BodyOpen,
        Part::BehindBody => PageCause::HtmlOpen,
        Part::Ended => PageCause::MissingPart,
    }
}

/// What is wrong with a tag.
fn tag_cause(after: &[u8]) -> PageCause {
    match after {
        [b'<', b'/', ..] => PageCause::EndTag,
        [b'<', b'!', ..] => PageCause::DoctypeInside,
        [b'<', b'a'..=b'z' | b'A'..=b'Z', ..] => PageCause::Tag,
        _ => PageCause::StrayLess,
    }
}

/// What is wrong with the nesting.
fn nesting_cause(after: &[u8], open: &Open<'_>) -> PageCause {
    if open.part == Part::Ended {
        return PageCause::EndTagBehind;
    }
    if after.is_empty() {
        return PageCause::EndOfPage;
    }
    if is_void_name(tag_name(after)) {
        return PageCause::VoidEnd;
    }
    match open.innermost() {
        Some(element) if is_ascii(element.name, b"script") => PageCause::ScriptEnd,
        _ => PageCause::Misnested,
    }
}

/// Whether the name is that of a void element (HTML 13.1.2).
fn is_void_name(name: &[u8]) -> bool {
    is_in_small(name, b"br")
        || is_in_small(name, b"input")
        || is_in_small(name, b"img")
        || is_in_small(name, b"hr")
        || is_in_small(name, b"meta")
        || is_in_small(name, b"link")
        || is_in_small(name, b"base")
        || is_in_small(name, b"area")
        || is_in_small(name, b"col")
        || is_in_small(name, b"source")
        || is_in_small(name, b"track")
        || is_in_small(name, b"wbr")
}

/// What is not in the subset.
fn subset_cause(after: &[u8], open: &Open<'_>) -> PageCause {
    if after.starts_with(b"<!--") {
        return PageCause::CommentInScript;
    }
    if !after.starts_with(b"<") {
        return attribute_cause(tag_name(after));
    }
    let name = tag_name(after);
    if is_in_small(name, b"html") || is_in_small(name, b"head") || is_in_small(name, b"body") {
        PageCause::SecondPart
    } else if is_in_small(name, b"input") && open.part == Part::InBody {
        PageCause::Radio
    } else if is_in_small(name, b"select") && open.part == Part::InBody {
        PageCause::Multiple
    } else if open.part == Part::InHead && open.elements.is_empty() {
        PageCause::NotOfHead
    } else {
        PageCause::Element
    }
}

/// Which attribute is not in the subset.
fn attribute_cause(name: &[u8]) -> PageCause {
    if is_in_small(name, b"type") {
        PageCause::ScriptType
    } else {
        PageCause::Handler
    }
}
