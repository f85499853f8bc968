ghost use Rattle.std.specs.Prelude.{◌≡◌, ◌+◌, ◌<◌, ◌≤◌, ◌^◌, IfOk, length, option_map};
ghost use Rattle.rip_markup.specs.Fault.{fault};
ghost use Rattle.rip_markup.specs.Forms.{form_of, stops, before};
ghost use Rattle.rip_markup.specs.Tokens.{text_run, raw_run, script_fault, comment_token, comment_count, end_tag, end_tag_count, ReadsForm, Reads};

use crate::ascii::{GREATER, LESS};
use crate::attribute::{count_to, lowered};
use crate::fault::Fault;
use crate::form::{
    Form, Stop, begins_with, begins_with_greater, count_before, form_of, split_before,
};
use crate::tag::start_tag;
use crate::text::decode;
use crate::token::{Content, EndTag, TextRun, Token};
use crate::units::{name_count, space_count};
use rip_base::{NoMemory, PageKind, Units};
use std::alloc::Global;

/// The token that a text begins with in an element of this content, and how many units it has.
pub(crate) fn first_token(
    alloc: Global,
    content: Content,
    text: &[u16],
) -> Result<(Token, usize), NoMemory>
    requires { length text.now < 2 ^ 32 }
    ensures read { IfOk result (λ made. Reads content text.now made.0 made.1) }
    ensures bound { IfOk result (λ made. made.1 ≤ length text.now) }
{
    match content {
        Content::Script => script_text(alloc, text),
        Content::Style => style_text(alloc, text),
        Content::Title => element_text(alloc, Stop::TitleEnd, text),
        Content::Textarea => element_text(alloc, Stop::TextareaEnd, text),
        Content::Markup | Content::Preformatted => markup(alloc, text),
    }
}

/// The text of a script (HTML 13.1.2, 4.12.1.3).
fn script_text(alloc: Global, text: &[u16]) -> Result<(Token, usize), NoMemory>
    ensures read { IfOk result (λ made. Reads Content.Script text.now made.0 made.1) }
    ensures bound { IfOk result (λ made. made.1 ≤ length text.now) }
{
    let (body, _) = split_before(Stop::ScriptEnd, text);
    let run = raw_run(alloc, body, script_fault(body))?;
    Ok((Token::Text(run), body.len()))
}

/// The text of a style.
fn style_text(alloc: Global, text: &[u16]) -> Result<(Token, usize), NoMemory>
    ensures read { IfOk result (λ made. Reads Content.Style text.now made.0 made.1) }
    ensures bound { IfOk result (λ made. made.1 ≤ length text.now) }
{
    let (body, _) = split_before(Stop::StyleEnd, text);
    let run = raw_run(alloc, body, None)?;
    Ok((Token::Text(run), body.len()))
}

/// The text of an element up to its end tag.
fn element_text(alloc: Global, stop: Stop, text: &[u16]) -> Result<(Token, usize), NoMemory>
    ensures token { IfOk result
        (λ made. made.0 ≡ Token.Text (text_run (before (stops stop) text.now))) }
    ensures count { IfOk result (λ made. made.1 ≡ length (before (stops stop) text.now)) }
    ensures bound { IfOk result (λ made. made.1 ≤ length text.now) }
{
    let (body, _) = split_before(stop, text);
    let run = text_run(alloc, body)?;
    Ok((Token::Text(run), body.len()))
}

/// What is wrong with the text of a script: it holds no `<!--`.
fn script_fault(body: &[u16]) -> Option<Fault>
    ensures { result ≡ script_fault body.now }
{
    let offset = count_before(Stop::CommentOpen, body);
    if offset < body.len() {
        Some(Fault {
            offset,
            kind: PageKind::NotInSubset,
        })
    } else {
        None
    }
}

/// A text that stands for itself.
fn raw_run(alloc: Global, body: &[u16], fault: Option<Fault>) -> Result<TextRun, NoMemory>
    ensures { IfOk result (λ run. run ≡ raw_run body.now fault) }
{
    Ok(TextRun {
        units: Units::from_slice(alloc, body)?,
        space: space_count(body),
        count: body.len(),
        fault,
    })
}

/// A text with references (HTML 13.1.4).
fn text_run(alloc: Global, body: &[u16]) -> Result<TextRun, NoMemory>
    ensures { IfOk result (λ run. run ≡ text_run body.now) }
{
    let decoded = decode(alloc, body)?;
    Ok(TextRun {
        units: decoded.units,
        space: space_count(body),
        count: body.len(),
        fault: reference_fault(decoded.bad),
    })
}

/// The fault of a reference at this place.
fn reference_fault(place: Option<usize>) -> Option<Fault>
    ensures { result ≡ option_map (λ n. fault n PageKind.BadReference) place }
{
    match place {
        Some(offset) => Some(Fault {
            offset,
            kind: PageKind::BadReference,
        }),
        None => None,
    }
}

/// The token that a text begins with between tags.
fn markup(alloc: Global, text: &[u16]) -> Result<(Token, usize), NoMemory>
    requires { length text.now < 2 ^ 32 }
    ensures read { IfOk result (λ made. ReadsForm (form_of text.now) text.now made.0 made.1) }
    ensures bound { IfOk result (λ made. made.1 ≤ length text.now) }
{
    match form_of(text) {
        Form::End => Ok((Token::End, 0)),
        Form::Text => text_token(alloc, text),
        Form::StartTag => {
            let (_, behind) = text.split_at(1);
            let (tag, count) = start_tag(alloc, behind)?;
            Ok((Token::StartTag(tag), count))
        }
        Form::EndTag => {
            let (_, named) = text.split_at(2);
            let (end, count) = end_tag(alloc, named)?;
            Ok((Token::EndTag(end), count))
        }
        Form::Comment => {
            let (_, behind) = text.split_at(4);
            comment(alloc, behind)
        }
        Form::Doctype => {
            let (_, inside) = text.split_at(9);
            Ok((Token::Doctype, count_to(GREATER, inside) + 10))
        }
        Form::Stray => Ok((Token::Stray, 0)),
    }
}

/// The text that stands before the next `<`.
fn text_token(alloc: Global, text: &[u16]) -> Result<(Token, usize), NoMemory>
    ensures read { IfOk result (λ made. ReadsForm Form.Text text.now made.0 made.1) }
    ensures bound { IfOk result (λ made. made.1 ≤ length text.now) }
{
    let (body, _) = text.split_at(count_to(LESS, text));
    let run = text_run(alloc, body)?;
    Ok((Token::Text(run), body.len()))
}

/// The end tag whose `</` these units follow, and how many units it has with that (HTML 13.1.2.2).
fn end_tag(alloc: Global, named: &[u16]) -> Result<(EndTag, usize), NoMemory>
    ensures tag { IfOk result (λ made. made.0 ≡ end_tag named.now) }
    ensures count { IfOk result (λ made. made.1 ≡ end_tag_count named.now) }
    ensures bound { IfOk result (λ made. made.1 ≤ length named.now + 2) }
{
    let (spelled, after) = named.split_at(name_count(named));
    let space = space_count(after);
    let (_, behind) = after.split_at(space);
    let name = lowered(alloc, spelled)?;
    if begins_with_greater(behind) {
        Ok((EndTag { name, whole: true }, spelled.len() + space + 3))
    } else {
        Ok((EndTag { name, whole: false }, 0))
    }
}

/// The comment whose `<!--` these units follow, and how many units it has with that (HTML 13.1.6).
fn comment(alloc: Global, text: &[u16]) -> Result<(Token, usize), NoMemory>
    ensures token { IfOk result (λ made. made.0 ≡ comment_token text.now) }
    ensures count { IfOk result (λ made. made.1 ≡ comment_count text.now) }
    ensures bound { IfOk result (λ made. made.1 ≤ length text.now + 4) }
{
    let (body, behind) = split_before(Stop::CommentClose, text);
    if begins_with(behind, b"-->") {
        let units = Units::from_slice(alloc, body)?;
        Ok((Token::Comment(units), body.len() + 7))
    } else {
        Ok((Token::OpenComment, 0))
    }
}
