ghost use Rattle.std.specs.Prelude.{◌≡◌, ◌<◌, ◌^◌, codes, List as Items};
ghost use Rattle.rip_html.specs.Refusals.{text_kind, end_kind, content_kind, due_kind, beginning_kind, head_tag_kind, head_kind, body_tag_kind, body_kind, scripts_kind, closing_kind, ended_kind, part_kind, element_kind};

use crate::part::Part;
use crate::tags::{is_of_head, is_outside, is_script};
use rip_base::{PageKind, Units, is_ascii};
use rip_markup::{TextRun, Token, is_void};

/// How many elements may be open.
const MOST_OPEN: usize = 200;

/// As what a text is refused where space alone may stand.
fn text_kind(kind: PageKind, run: &TextRun) -> Option<PageKind>
    ensures { result ≡ text_kind kind run.now }
{
    if run.space == run.count {
        None
    } else {
        Some(kind)
    }
}

/// As what a tag of this name is refused where one of another should stand.
fn name_kind(kind: PageKind, due: &[u8], name: &Units) -> Option<PageKind>
    ensures { result ≡ end_kind kind due.now name.now }
{
    if is_ascii(name.as_slice(), due) {
        None
    } else {
        Some(kind)
    }
}

/// As what a start tag is refused in an element, where so many elements are open with it.
fn content_kind(depth: usize, name: &[u16]) -> Option<PageKind>
    ensures { result ≡ content_kind depth name.now }
{
    if is_script(name) {
        Some(PageKind::ScriptNotLast)
    } else if is_outside(name) {
        Some(PageKind::NotInSubset)
    } else if !is_void(name) && depth >= MOST_OPEN {
        Some(PageKind::TooNested)
    } else {
        None
    }
}

/// As what a token is refused where the start tag of this part should stand.
fn due_kind(due: &[u8], token: &Token) -> Option<PageKind>
    ensures { result ≡ due_kind due.now token.now }
{
    match token {
        Token::Text(run) => text_kind(PageKind::TextOutside, run),
        Token::Comment(_) | Token::OpenComment => None,
        Token::StartTag(tag) => name_kind(PageKind::MissingPart, due, &tag.name),
        Token::EndTag(_) | Token::Doctype | Token::Stray | Token::End => {
            Some(PageKind::MissingPart)
        }
    }
}

/// As what a token is refused at the beginning of a page.
fn beginning_kind(token: &Token) -> Option<PageKind>
    ensures { result ≡ beginning_kind token.now }
{
    match token {
        Token::Doctype => None,
        _ => due_kind(b"html", token),
    }
}

/// As what a start tag is refused in the head.
fn head_tag_kind(name: &[u16]) -> Option<PageKind>
    ensures { result ≡ head_tag_kind name.now }
{
    if is_of_head(name) {
        None
    } else if is_script(name) {
        Some(PageKind::ScriptNotLast)
    } else {
        Some(PageKind::NotInSubset)
    }
}

/// As what a token is refused in the head.
fn head_kind(token: &Token) -> Option<PageKind>
    ensures { result ≡ head_kind token.now }
{
    match token {
        Token::Text(run) => text_kind(PageKind::TextOutside, run),
        Token::StartTag(tag) => head_tag_kind(tag.name.as_slice()),
        Token::EndTag(end) => name_kind(PageKind::Misnested, b"head", &end.name),
        Token::Doctype => Some(PageKind::BadTag),
        Token::End => Some(PageKind::MissingPart),
        Token::Comment(_) | Token::OpenComment | Token::Stray => None,
    }
}

/// As what a start tag is refused in the body.
fn body_tag_kind(name: &[u16]) -> Option<PageKind>
    ensures { result ≡ body_tag_kind name.now }
{
    if is_script(name) {
        None
    } else {
        content_kind(2, name)
    }
}

/// As what a token is refused in the body before its scripts.
fn body_kind(token: &Token) -> Option<PageKind>
    ensures { result ≡ body_kind token.now }
{
    match token {
        Token::StartTag(tag) => body_tag_kind(tag.name.as_slice()),
        Token::EndTag(end) => name_kind(PageKind::Misnested, b"body", &end.name),
        Token::Doctype => Some(PageKind::BadTag),
        Token::End => Some(PageKind::MissingPart),
        Token::Text(_) | Token::Comment(_) | Token::OpenComment | Token::Stray => None,
    }
}

/// As what a token is refused in the body behind a script.
fn scripts_kind(token: &Token) -> Option<PageKind>
    ensures { result ≡ scripts_kind token.now }
{
    match token {
        Token::Text(run) => text_kind(PageKind::ScriptNotLast, run),
        Token::Comment(_) => Some(PageKind::ScriptNotLast),
        Token::StartTag(tag) => name_kind(PageKind::ScriptNotLast, b"script", &tag.name),
        Token::EndTag(end) => name_kind(PageKind::Misnested, b"body", &end.name),
        Token::Doctype => Some(PageKind::BadTag),
        Token::End => Some(PageKind::MissingPart),
        Token::OpenComment | Token::Stray => None,
    }
}

/// As what a token is refused behind the body.
fn closing_kind(token: &Token) -> Option<PageKind>
    ensures { result ≡ closing_kind token.now }
{
    match token {
        Token::Text(run) => text_kind(PageKind::TextOutside, run),
        Token::Comment(_) | Token::OpenComment => None,
        Token::EndTag(end) => name_kind(PageKind::MissingPart, b"html", &end.name),
        Token::StartTag(_) | Token::Doctype | Token::Stray | Token::End => {
            Some(PageKind::MissingPart)
        }
    }
}

/// As what a token is refused behind `</html>`.
fn ended_kind(token: &Token) -> Option<PageKind>
    ensures { result ≡ ended_kind token.now }
{
    match token {
        Token::Text(run) => text_kind(PageKind::TextOutside, run),
        Token::StartTag(_) => Some(PageKind::TextOutside),
        Token::EndTag(_) => Some(PageKind::Misnested),
        Token::Doctype => Some(PageKind::BadTag),
        Token::Comment(_) | Token::OpenComment | Token::Stray | Token::End => None,
    }
}

/// As what a token is refused in a part of a page and in no element within it.
pub(crate) fn part_kind(part: Part, token: &Token) -> Option<PageKind>
    ensures { result ≡ part_kind part token.now }
{
    match part {
        Part::Beginning => beginning_kind(token),
        Part::BehindDoctype => due_kind(b"html", token),
        Part::InHtml => due_kind(b"head", token),
        Part::InHead => head_kind(token),
        Part::BehindHead => due_kind(b"body", token),
        Part::InBody => body_kind(token),
        Part::InScripts => scripts_kind(token),
        Part::BehindBody => closing_kind(token),
        Part::BehindHtml => ended_kind(token),
    }
}

/// As what a token is refused in an element of this name within head or body, where so many elements are open with it.
pub(crate) fn element_kind(innermost: &[u16], depth: usize, token: &Token) -> Option<PageKind>
    ensures { result ≡ element_kind innermost.now depth token.now }
{
    match token {
        Token::StartTag(tag) => content_kind(depth, tag.name.as_slice()),
        Token::EndTag(end) => closing_name_kind(innermost, end.name.as_slice()),
        Token::Doctype => Some(PageKind::BadTag),
        Token::End => Some(PageKind::Misnested),
        Token::Text(_) | Token::Comment(_) | Token::OpenComment | Token::Stray => None,
    }
}

/// As what an end tag is refused where the innermost element has another name.
fn closing_name_kind(innermost: &[u16], name: &[u16]) -> Option<PageKind>
    ensures { result ≡ end_kind PageKind.Misnested innermost.now name.now }
{
    if name == innermost {
        None
    } else {
        Some(PageKind::Misnested)
    }
}
