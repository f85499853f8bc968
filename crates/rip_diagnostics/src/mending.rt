//! What a page has that is accepted, and that a browser mends: its session ends.

use crate::cause::Mending;
use crate::page::{PageFile, byte_at};
use crate::sheet::{Severity, Sheet};
use crate::table::mending_message;
use crate::tags::{Open, Opened, spelled};
use rip_base::{NoMemory, is_ascii, is_ascii_in_small};
use rip_markup::{PageText, Placed, StartTag, Token};
use std::alloc::Global;

/// The names of elements at which an open `p` is closed (HTML 13.2.6.4.7).
const BLOCKS: [&[u8]; 40] = [
    b"address",
    b"article",
    b"aside",
    b"blockquote",
    b"center",
    b"details",
    b"dialog",
    b"dir",
    b"div",
    b"dl",
    b"fieldset",
    b"figcaption",
    b"figure",
    b"footer",
    b"form",
    b"h1",
    b"h2",
    b"h3",
    b"h4",
    b"h5",
    b"h6",
    b"header",
    b"hgroup",
    b"hr",
    b"listing",
    b"main",
    b"menu",
    b"nav",
    b"ol",
    b"p",
    b"pre",
    b"search",
    b"section",
    b"summary",
    b"table",
    b"ul",
    b"li",
    b"dd",
    b"dt",
    b"xmp",
];

/// The types of `input` that are alike here and in a browser.
const TYPES: [&[u8]; 11] = [
    b"text",
    b"password",
    b"search",
    b"tel",
    b"url",
    b"email",
    b"number",
    b"checkbox",
    b"hidden",
    b"submit",
    b"button",
];

/// Says what a browser would mend of the page that these tokens are.
pub fn put_mendings(
    alloc: Global,
    sheet: &mut Sheet,
    page: PageFile<'_>,
    text: &PageText,
    tokens: &[Placed],
) -> Result<(), NoMemory> {
    let mut open = Open::new(alloc);
    for placed in tokens {
        if let Some((mending, name)) = mending_at(&placed.token, open.elements.as_slice()) {
            let word = spelled(alloc, name)?;
            let place = byte_at(text, placed.place);
            let count = word.as_slice().len().saturating_add(1);
            let at = page.at(place, count);
            sheet.put(
                Severity::Warning,
                mending_message(mending),
                word.as_slice(),
                at,
            )?;
            sheet.end()?;
        }
        open.pass(placed)?;
    }
    Ok(())
}

/// What a browser mends at a token, and the name of the element.
fn mending_at<'a>(token: &'a Token, open: &[Opened<'a>]) -> Option<(Mending, &'a [u16])> {
    match token {
        Token::StartTag(tag) => {
            let name = tag.name.as_slice();
            Some((tag_mending(tag, name, open)?, name))
        }
        Token::Text(run) if run.space < run.count => match open {
            [.., parent] if is_table_around(parent.name) => {
                Some((Mending::TextInTable, parent.name))
            }
            _ => None,
        },
        _ => None,
    }
}

/// What a browser mends at a start tag.
fn tag_mending(tag: &StartTag, name: &[u16], open: &[Opened<'_>]) -> Option<Mending> {
    let parent: &[u16] = match open {
        [.., parent] => parent.name,
        [] => &[],
    };
    if is_among(name, &BLOCKS) && is_in_paragraph(open) {
        return Some(Mending::BlockInParagraph);
    }
    if is_alone(name) && open.iter().any(|element| element.name == name) {
        return Some(Mending::InItself);
    }
    if is_ascii(name, b"input") && !has_plain_type(tag) {
        return Some(Mending::InputType);
    }
    table_mending(name, parent).or(like_mending(name, parent))
}

/// What a browser mends at a tag in a table, or at a part of one elsewhere.
fn table_mending(name: &[u16], parent: &[u16]) -> Option<Mending> {
    let is_part = is_table_part(name);
    if is_ascii(parent, b"table") {
        if is_ascii(name, b"tr") {
            return Some(Mending::NoBody);
        }
        return part_mending(is_part, is_of_table(name));
    }
    if is_row_group(parent) {
        return part_mending(is_part, is_ascii(name, b"tr"));
    }
    if is_ascii(parent, b"tr") {
        return part_mending(is_part, is_cell(name));
    }
    let is_column = is_ascii(parent, b"colgroup") && is_ascii(name, b"col");
    if is_part && !is_column {
        return Some(Mending::TablePart);
    }
    None
}

/// What a browser mends where a tag is or is not what belongs at its place in a table.
fn part_mending(is_part: bool, belongs: bool) -> Option<Mending> {
    match (belongs, is_part) {
        (true, _) => None,
        (false, true) => Some(Mending::TablePart),
        (false, false) => Some(Mending::InTable),
    }
}

/// What a browser mends at a tag in its like, or in a `select`.
fn like_mending(name: &[u16], parent: &[u16]) -> Option<Mending> {
    let is_choice = is_ascii(name, b"option") || is_ascii(name, b"optgroup");
    if is_ascii(parent, b"select") && !is_choice && !is_ascii(name, b"hr") {
        return Some(Mending::InSelect);
    }
    let is_like = name == parent && (is_choice || is_ascii(name, b"li"))
        || is_term(name) && is_term(parent)
        || is_heading(name) && is_heading(parent);
    if is_like { Some(Mending::InLike) } else { None }
}

/// Whether the name is among these.
fn is_among(name: &[u16], names: &[&[u8]]) -> bool {
    names.iter().any(|other| is_ascii(name, other))
}

/// Whether an open `p` would be closed by a block.
fn is_in_paragraph(open: &[Opened<'_>]) -> bool {
    for element in open.iter().rev() {
        let name = element.name;
        if is_ascii(name, b"p") {
            return true;
        }
        if is_cell(name)
            || is_ascii(name, b"button")
            || is_ascii(name, b"caption")
            || is_ascii(name, b"table")
        {
            return false;
        }
    }
    false
}

/// Whether the element stands in none of its name.
fn is_alone(name: &[u16]) -> bool {
    is_ascii(name, b"a") || is_ascii(name, b"button") || is_ascii(name, b"form")
}

/// Whether the `type` is one of those that are alike in both, or is not there.
fn has_plain_type(tag: &StartTag) -> bool {
    for attribute in tag.attributes.as_slice() {
        if is_ascii(attribute.name.as_slice(), b"type") {
            let value = attribute.value.as_slice();
            return TYPES.iter().any(|other| is_ascii_in_small(value, other));
        }
    }
    true
}

/// Whether text has no place directly in the element.
fn is_table_around(name: &[u16]) -> bool {
    is_ascii(name, b"table") || is_ascii(name, b"tr") || is_row_group(name)
}

/// Whether the element is a group of rows.
fn is_row_group(name: &[u16]) -> bool {
    is_ascii(name, b"tbody") || is_ascii(name, b"thead") || is_ascii(name, b"tfoot")
}

/// Whether the element is a cell.
fn is_cell(name: &[u16]) -> bool {
    is_ascii(name, b"td") || is_ascii(name, b"th")
}

/// Whether the element stands directly in a table.
fn is_of_table(name: &[u16]) -> bool {
    is_row_group(name) || is_ascii(name, b"caption") || is_ascii(name, b"colgroup")
}

/// Whether the element is a part of a table.
fn is_table_part(name: &[u16]) -> bool {
    is_of_table(name) || is_cell(name) || is_ascii(name, b"tr") || is_ascii(name, b"col")
}

/// Whether the element is a term of a list or what is said of it.
fn is_term(name: &[u16]) -> bool {
    is_ascii(name, b"dd") || is_ascii(name, b"dt")
}

/// Whether the element is a heading.
fn is_heading(name: &[u16]) -> bool {
    matches!(name, [0x68, 0x31..=0x36])
}
