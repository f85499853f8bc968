ghost use Rattle.std.specs.Prelude.{◌≡◌, ◌+◌, ◌<◌, ◌≤◌, ◌^◌, ◌||◌, ℕ, None, Some, List as Items, option_map, IfOk, IfSome, IsTrue, length};
ghost use Rattle.std.specs.Option.{ForSome};
ghost use Rattle.rip_base.specs.Units.{begins};
ghost use Rattle.rip_markup.specs.Fault.{fault, shifted, option_or};
ghost use Rattle.rip_markup.specs.Tags.{tag_end, attribute_fault, own_fault, type_fault, is_against, is_radio, is_multiple, tag_fault, AreRead, IsStartTag};
ghost use Rattle.rip_markup.specs.Units.{is_letter};
ghost use Rattle.rip_markup.specs.Ends.{has_solidus, end_count, end_space};

use crate::ascii::{GREATER, SLASH};
use crate::attribute::{ReadAttribute, leading_attribute, lowered, read_attribute};
use crate::fault::Fault;
use crate::names::{add_name, no_names};
use crate::units::{name_count, space_count};
use crate::words::{begins_with_on, is_script_type, is_void};
use rip_base::{Attribute, List, NoMemory, PageKind, PairList, Units, is_ascii, is_ascii_in_small};
use std::alloc::Global;

/// How a start tag ends behind its attributes.
#[derive(Clone, Copy, Debug, PartialEq, Eq)]
pub(crate) enum TagEnd {
    /// With `>` or `/>`, and so many units of space and these.
    Closed { solidus: bool, count: usize },
    /// Not at all.
    Malformed,
    /// Behind so much space stands no attribute.
    NoAttribute { space: usize },
}

/// How a tag ends behind its attributes (HTML 13.1.2.1).
fn tag_end(rest: &[u16]) -> TagEnd
    ensures value { result ≡ tag_end rest.now }
    ensures bound { end_space result + end_count result ≤ length rest.now }
{
    let space = space_count(rest);
    let (_, behind) = rest.split_at(space);
    match behind {
        [] => TagEnd::Malformed,
        [GREATER, ..] => TagEnd::Closed {
            solidus: false,
            count: space + 1,
        },
        [SLASH, GREATER, ..] => TagEnd::Closed {
            solidus: true,
            count: space + 2,
        },
        _ if space == 0 => TagEnd::Malformed,
        _ => TagEnd::NoAttribute { space },
    }
}

/// A start tag.
#[derive(Debug, Drop)]
pub struct StartTag {
    /// The name in small letters.
    pub name: Units,
    pub attributes: PairList,
    /// Whether it ends with `/>`.
    pub solidus: bool,
    /// What is wrong with it first, counted from its `<`.
    pub fault: Option<Fault>,
}

/// The start tag that stands behind a `<`, and how many units it has with that (HTML 13.1.2.1).
pub(crate) fn start_tag(alloc: Global, behind: &[u16]) -> Result<(StartTag, usize), NoMemory>
    requires small { 1 + length behind.now < 2 ^ 32 }
    requires letter { IsTrue (begins is_letter behind.now) }
    ensures tag { IfOk result (λ made. IsStartTag behind.now made.0 made.1) }
    ensures bound { IfOk result (λ made. (0 < made.1) × (made.1 ≤ 1 + length behind.now)) }
{
    let (spelled, after) = behind.split_at(name_count(behind));
    let name = lowered(alloc, spelled)?;
    let read = read_attributes(alloc, name.as_slice(), 1 + spelled.len(), after)?;
    let (_, rest) = after.split_at(read.place - (1 + spelled.len()));
    let end = tag_end(rest);
    let fault = tag_fault(name.as_slice(), read.against, read.fault, read.place, end);
    let Attributes {
        pairs,
        fault: _,
        against: _,
        place,
    } = read;
    Ok((
        StartTag {
            name,
            attributes: pairs,
            solidus: has_solidus(end),
            fault,
        },
        place + end_count(end),
    ))
}

/// Whether a tag ends with `/>`.
fn has_solidus(end: TagEnd) -> bool
    ensures { result ≡ has_solidus end }
{
    match end {
        TagEnd::Closed { solidus, .. } => solidus,
        TagEnd::Malformed | TagEnd::NoAttribute { .. } => false,
    }
}

/// How many units the end of a tag has.
fn end_count(end: TagEnd) -> usize
    ensures { result ≡ end_count end }
{
    match end {
        TagEnd::Closed { count, .. } => count,
        TagEnd::Malformed | TagEnd::NoAttribute { .. } => 0,
    }
}

/// What is wrong with a tag first, where this is wrong with its attributes, which end at this place.
fn tag_fault(
    name: &[u16],
    against: bool,
    found: Option<Fault>,
    place: usize,
    end: TagEnd,
) -> Option<Fault>
    requires { place + end_space end < 2 ^ 64 }
    ensures { result ≡ tag_fault name.now against found place end }
{
    match end {
        TagEnd::Malformed => refused(PageKind::BadTag),
        TagEnd::NoAttribute { space } => match found {
            Some(fault) => Some(fault),
            None => Some(Fault {
                offset: place + space,
                kind: PageKind::BadAttribute,
            }),
        },
        TagEnd::Closed { solidus, .. } if solidus && !is_void(name) => refused(PageKind::BadTag),
        TagEnd::Closed { .. } if against => refused(PageKind::NotInSubset),
        TagEnd::Closed { .. } => found,
    }
}

/// The attributes of a start tag.
#[derive(Debug, Drop)]
struct Attributes {
    pairs: PairList,
    /// What is wrong with them first, counted from the `<` of the tag.
    fault: Option<Fault>,
    /// Whether the tag is refused for one of them.
    against: bool,
    /// Where they end, counted likewise.
    place: usize,
}

/// The attributes that a text begins with, which stands so many units behind the `<` of a tag of this name.
fn read_attributes(
    alloc: Global,
    tag: &[u16],
    start: usize,
    text: &[u16],
) -> Result<Attributes, NoMemory>
    requires { start + length text.now < 2 ^ 32 }
    ensures bound { IfOk result
        (λ made. (start ≤ made.place) × (made.place ≤ start + length text.now)) }
    ensures read { IfOk result
        (λ made. (rest : Items ℕ) × AreRead tag.now start text.now rest made.pairs made.fault
        made.against made.place) }
{
    let mut pairs = Vec::new(alloc);
    let mut seen = no_names(alloc);
    let mut fault = None;
    let mut against = false;
    let mut place = start;
    let mut rest = text;
    while let Some(parts) = leading_attribute(rest) {
        let read = read_attribute(alloc, parts.name, parts.before, parts.value)?;
        let double = add_name(alloc, &mut seen, read.name.as_slice())?;
        fault = first_fault(
            fault,
            place + parts.space,
            attribute_fault(tag, double, &read),
        );
        against = or(against, is_against(tag, double, &read));
        place += rest.len() - parts.rest.len();
        rest = parts.rest;
        pairs.push(pair(read))?;
    }
    Ok(Attributes {
        pairs: List::from_vec(pairs),
        fault,
        against,
        place,
    })
}

/// The pair of an attribute.
fn pair(read: ReadAttribute) -> Attribute
    ensures { result ≡ record { name = read.name; value = read.value } }
{
    let ReadAttribute {
        name,
        value,
        bad: _,
    } = read;
    Attribute { name, value }
}

/// Whether one of the two holds.
fn or(first: bool, second: bool) -> bool
    ensures { result ≡ (first || second) }
{
    first || second
}

/// The fault that was found before, or else that of a part at this place.
fn first_fault(found: Option<Fault>, place: usize, fault: Option<Fault>) -> Option<Fault>
    requires { ForSome fault (λ f. place + f.offset < 2 ^ 64) }
    ensures { result ≡ option_or found (option_map (shifted place) fault) }
{
    match (found, fault) {
        (None, Some(fault)) => Some(Fault {
            offset: place + fault.offset,
            kind: fault.kind,
        }),
        _ => found,
    }
}

/// What is wrong with an attribute, where an earlier one has its name or none has.
fn attribute_fault(tag: &[u16], double: bool, read: &ReadAttribute) -> Option<Fault>
    ensures value { result ≡ attribute_fault tag.now double read.now }
    ensures bound { (most : ℕ) → IfSome read.now.bad (λ n. n ≤ most)
        → IfSome result (λ f. f.offset ≤ most) }
{
    if double {
        refused(PageKind::DoubleAttribute)
    } else {
        own_fault(tag, read)
    }
}

/// A fault at the attribute itself.
fn refused(kind: PageKind) -> Option<Fault>
    ensures { result ≡ Some (fault 0 kind) }
{
    Some(Fault { offset: 0, kind })
}

/// What is wrong with an attribute for itself.
fn own_fault(tag: &[u16], read: &ReadAttribute) -> Option<Fault>
    ensures value { result ≡ own_fault tag.now read.now }
    ensures bound { (most : ℕ) → IfSome read.now.bad (λ n. n ≤ most)
        → IfSome result (λ f. f.offset ≤ most) }
{
    if is_ascii(tag, b"script") && is_ascii(read.name.as_slice(), b"src") {
        return refused(PageKind::ExternalScript);
    }
    if begins_with_on(read.name.as_slice()) {
        return refused(PageKind::NotInSubset);
    }
    if let Some(fault) = type_fault(tag, read) {
        return Some(fault);
    }
    match read.bad {
        Some(offset) => Some(Fault {
            offset,
            kind: PageKind::BadReference,
        }),
        None => None,
    }
}

/// What is wrong with the `type` of a script.
fn type_fault(tag: &[u16], read: &ReadAttribute) -> Option<Fault>
    ensures value { result ≡ type_fault tag.now read.now }
    ensures bound { IfSome result (λ f. f.offset ≡ 0) }
{
    if is_ascii(tag, b"script")
        && is_ascii(read.name.as_slice(), b"type")
        && (read.bad.is_some() || !is_script_type(read.value.as_slice()))
    {
        refused(PageKind::NotInSubset)
    } else {
        None
    }
}

/// Whether the tag is refused for an attribute, where an earlier one has its name or none has.
fn is_against(tag: &[u16], double: bool, read: &ReadAttribute) -> bool
    ensures { result ≡ is_against tag.now double read.now }
{
    !double && (is_radio(tag, read) || is_multiple(tag, read))
}

/// Whether an `input` is a radio button by this attribute.
fn is_radio(tag: &[u16], read: &ReadAttribute) -> bool
    ensures { result ≡ is_radio tag.now read.now }
{
    is_ascii(tag, b"input")
        && is_ascii(read.name.as_slice(), b"type")
        && read.bad.is_none()
        && is_ascii_in_small(read.value.as_slice(), b"radio")
}

/// Whether a `select` takes more than one option by this attribute.
fn is_multiple(tag: &[u16], read: &ReadAttribute) -> bool
    ensures { result ≡ is_multiple tag.now read.now }
{
    is_ascii(tag, b"select") && is_ascii(read.name.as_slice(), b"multiple")
}
