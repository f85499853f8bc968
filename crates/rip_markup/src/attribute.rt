ghost use Rattle.std.specs.Prelude.{◌≡◌, ◌==◌, ◌≤◌, ◌<◌, ◌^◌, ◌+◌, ℕ, not, option_map, IfSome, IfOk, MatchOption, length};
ghost use Rattle.std.specs.Option.{ForSome};
ghost use Rattle.std.specs.List.{prefix_len};
ghost use Rattle.rip_base.specs.Units.{small_text};
ghost use Rattle.rip_markup.specs.Scans.{attribute_at, named_at, value_at, given_at, quoted_at, unquoted_at, shown, shown_value, NoneLeads, ShowsAttribute};
ghost use Rattle.rip_markup.specs.Reads.{read_parts};

use crate::ascii::EQUALS;
use crate::text::decode;
use crate::units::{
    attribute_name_count, begins_with_letter, is_quote, space_count, unquoted_count,
};
use rip_base::{List, NoMemory, Units, small_unit};
use std::alloc::Global;

/// How many units an attribute has before its value, in it and behind it.
#[derive(Clone, Copy, Debug, PartialEq, Eq)]
pub(crate) struct ValueSpan {
    /// Of `=` and a quote.
    pub before: usize,
    pub count: usize,
    /// Of a quote.
    pub after: usize,
}

/// How many units the parts of an attribute have.
#[derive(Clone, Copy, Debug, PartialEq, Eq)]
pub(crate) struct AttributeSpan {
    /// Of the space before it.
    pub space: usize,
    pub name: usize,
    pub value: ValueSpan,
}

/// An attribute as it stands in a text.
#[derive(Clone, Copy, Debug)]
pub(crate) struct AttributeParts<'a> {
    /// How many units of space stand before it.
    pub space: usize,
    pub name: &'a [u16],
    /// How many units stand between the name and the value.
    pub before: usize,
    pub value: &'a [u16],
    /// What stands behind it.
    pub rest: &'a [u16],
}

/// An attribute as it is read.
#[derive(Debug, Drop)]
pub(crate) struct ReadAttribute {
    /// The name in small letters.
    pub name: Units,
    /// What the value stands for.
    pub value: Units,
    /// The place of the first reference in the value that is none, counted from the first unit of the name.
    pub bad: Option<usize>,
}

/// The attribute that the text begins with, or none where none can be read (HTML 13.1.2.3).
pub(crate) fn leading_attribute(text: &[u16]) -> Option<AttributeParts<'_>>
    ensures shows { MatchOption result (NoneLeads text.now)
        (λ p. ShowsAttribute text.now p.space p.name.now p.before p.value.now p.rest.now) }
    ensures bound { IfSome result
        (λ p. (p.space + length p.name.now + p.before + length p.value.now + length p.rest.now
        ≤ length text.now) × (length p.rest.now < length text.now) × (p.before ≤ 2)) }
{
    match attribute_at(text) {
        Some(span) => {
            let (_, after_space) = text.split_at(span.space);
            let (name, after_name) = after_space.split_at(span.name);
            let (_, after_sign) = after_name.split_at(span.value.before);
            let (value, after_value) = after_sign.split_at(span.value.count);
            let (_, rest) = after_value.split_at(span.value.after);
            Some(AttributeParts {
                space: span.space,
                name,
                before: span.value.before,
                value,
                rest,
            })
        }
        None => None,
    }
}

/// Reads an attribute with this name and value as they are spelled, and so many units between them.
pub(crate) fn read_attribute(
    alloc: Global,
    name: &[u16],
    before: usize,
    value: &[u16],
) -> Result<ReadAttribute, NoMemory>
    requires { before ≤ 2 }
    ensures read { IfOk result (λ read. read ≡ read_parts name.now before value.now) }
    ensures bound { IfOk result
        (λ read. IfSome read.bad (λ place. place ≤ length name.now + before + length value.now)) }
{
    let decoded = decode(alloc, value)?;
    Ok(ReadAttribute {
        name: lowered(alloc, name)?,
        value: decoded.units,
        bad: shifted_place(name.len() + before, decoded.bad),
    })
}

/// The place so many units further on.
fn shifted_place(by: usize, place: Option<usize>) -> Option<usize>
    requires { ForSome place (λ n. by + n < 2 ^ 64) }
    ensures value { result ≡ option_map (λ n. by + n) place }
    ensures bound { (most : ℕ) → IfSome place (λ n. n ≤ most) → IfSome result (λ n. n ≤ by + most) }
{
    match place {
        Some(n) => Some(by + n),
        None => None,
    }
}

/// The units with small letters.
pub(crate) fn lowered(alloc: Global, units: &[u16]) -> Result<Units, NoMemory>
    ensures { IfOk result (λ made. made ≡ small_text units.now) }
{
    let small: Vec<u16> = units.iter().map(|unit| small_unit(*unit)).collect(alloc)?;
    Ok(List::from_vec(small))
}

/// The attribute that the text begins with (HTML 13.1.2.3).
pub(crate) fn attribute_at(text: &[u16]) -> Option<AttributeSpan>
    ensures { result ≡ option_map shown (attribute_at text.now) }
{
    let (space, behind) = text.split_at(space_count(text));
    if space.is_empty() || !begins_with_letter(behind) {
        return None;
    }
    let (name, after) = behind.split_at(attribute_name_count(behind));
    match value_at(after) {
        Some(value) => Some(AttributeSpan {
            space: space.len(),
            name: name.len(),
            value,
        }),
        None => None,
    }
}

/// The value that stands behind a name.
fn value_at(text: &[u16]) -> Option<ValueSpan>
    ensures { result ≡ option_map shown_value (value_at text.now) }
{
    match text {
        [EQUALS, given @ ..] => given_at(given),
        _ => Some(ValueSpan {
            before: 0,
            count: 0,
            after: 0,
        }),
    }
}

/// The value that stands behind a `=`.
fn given_at(text: &[u16]) -> Option<ValueSpan>
    ensures { result ≡ option_map shown_value (given_at text.now) }
{
    match text {
        [] => None,
        [quote, after @ ..] if is_quote(*quote) => quoted_at(*quote, after),
        _ => unquoted_at(text),
    }
}

/// The value that ends at this quote.
fn quoted_at(quote: u16, text: &[u16]) -> Option<ValueSpan>
    ensures { result ≡ option_map shown_value (quoted_at quote text.now) }
{
    let (value, rest) = text.split_at(count_to(quote, text));
    match rest {
        [end, ..] if *end == quote => Some(ValueSpan {
            before: 2,
            count: value.len(),
            after: 1,
        }),
        _ => None,
    }
}

/// How many units stand before this one, or before the end of the text.
pub(crate) fn count_to(unit: u16, text: &[u16]) -> usize
    ensures value { result ≡ prefix_len (λ c. not (c == unit)) text.now }
    ensures bound { result ≤ length text.now }
{
    text.iter().take_while(|other| **other != unit).count()
}

/// The value without quotes that the text begins with.
fn unquoted_at(text: &[u16]) -> Option<ValueSpan>
    ensures { result ≡ option_map shown_value (unquoted_at text.now) }
{
    match unquoted_count(text) {
        0 => None,
        count => Some(ValueSpan {
            before: 1,
            count,
            after: 0,
        }),
    }
}
