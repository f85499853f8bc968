ghost use Rattle.std.specs.Prelude.{◌≡◌, ◌≤◌, ◌==◌, ◌+◌, drop, length};
ghost use Rattle.std.specs.Bool.{OnTrue};
ghost use Rattle.rip_base.specs.Units.{begins};
ghost use Rattle.rip_markup.specs.Units.{is_letter};
ghost use Rattle.rip_markup.specs.Words.{begins_with};
ghost use Rattle.rip_markup.specs.Forms.{begins_small, is_doctype, begins_end_tag, markup_form, form_of, is_end_tag, stops, before};

use crate::ascii::{GREATER, LESS, SLASH};
use crate::attribute::count_to;
use crate::units::{begins_with_letter, is_letter, space_count};
use rip_base::small_unit;

/// What a page begins with at a place.
#[derive(Clone, Copy, Debug, PartialEq, Eq)]
pub(crate) enum Form {
    End,
    Text,
    StartTag,
    EndTag,
    Comment,
    Doctype,
    /// A `<` that begins none of these.
    Stray,
}

/// Where a run of units stops.
#[derive(Clone, Copy, Debug, PartialEq, Eq)]
pub(crate) enum Stop {
    CommentClose,
    CommentOpen,
    ScriptEnd,
    StyleEnd,
    TitleEnd,
    TextareaEnd,
}

/// What the text begins with (HTML 13.1, 13.2.5).
pub(crate) fn form_of(text: &[u16]) -> Form
    ensures { result ≡ form_of text.now }
{
    match text {
        [] => Form::End,
        [LESS, rest @ ..] => markup_form(rest),
        _ => Form::Text,
    }
}

/// What stands behind a `<`.
fn markup_form(rest: &[u16]) -> Form
    ensures { result ≡ markup_form rest.now }
{
    if begins_with_letter(rest) {
        Form::StartTag
    } else if begins_end_tag(rest) {
        Form::EndTag
    } else if begins_with(rest, b"!--") {
        Form::Comment
    } else if is_doctype(rest) {
        Form::Doctype
    } else {
        Form::Stray
    }
}

/// Whether an end tag's name stands behind the `<`.
fn begins_end_tag(rest: &[u16]) -> bool
    ensures { result ≡ begins_end_tag rest.now }
{
    matches!(rest, [SLASH, unit, ..] if is_letter(*unit))
}

/// Whether a doctype stands behind the `<` (HTML 13.1.1).
fn is_doctype(rest: &[u16]) -> bool
    ensures { result ≡ is_doctype rest.now }
{
    if !begins_small(rest, b"!doctype") {
        return false;
    }
    let (_, inside) = rest.split_at(8);
    let (_, behind) = inside.split_at(count_to(GREATER, inside));
    begins_with_greater(behind)
}

/// Whether the text begins with these units.
pub(crate) fn begins_with(text: &[u16], front: &[u8]) -> bool
    ensures front { result ≡ begins_with front.now text.now }
    ensures bound { OnTrue result (length front.now ≤ length text.now) }
{
    let mut rest = text;
    for byte in front {
        match rest {
            [unit, after @ ..] if *unit == u16::from(*byte) => rest = after,
            _ => return false,
        }
    }
    true
}

/// Whether the text begins with these small letters and other units, in any case.
fn begins_small(text: &[u16], front: &[u8]) -> bool
    ensures small { result ≡ begins_small front.now text.now }
    ensures bound { OnTrue result (length front.now ≤ length text.now) }
{
    let mut rest = text;
    for byte in front {
        match rest {
            [unit, after @ ..] if small_unit(*unit) == u16::from(*byte) => rest = after,
            _ => return false,
        }
    }
    true
}

/// Whether a whole end tag stands here. The units are those from its `<` to its name.
fn is_end_tag(text: &[u16], front: &[u8]) -> bool
    ensures { result ≡ is_end_tag front.now text.now }
{
    if !begins_small(text, front) {
        return false;
    }
    let (_, after) = text.split_at(front.len());
    let (_, behind) = after.split_at(space_count(after));
    begins_with_greater(behind)
}

/// Whether the units begin with `>`.
pub(crate) fn begins_with_greater(units: &[u16]) -> bool
    ensures { result ≡ begins (λ c. c == 62) units.now }
{
    matches!(units, [GREATER, ..])
}

/// Whether a run of units stops here (HTML 13.1.2.6, 13.1.6).
fn stops(stop: Stop, text: &[u16]) -> bool
    ensures { result ≡ stops stop text.now }
{
    match stop {
        Stop::CommentClose => begins_with(text, b"-->"),
        Stop::CommentOpen => begins_with(text, b"<!--"),
        Stop::ScriptEnd => begins_small(text, b"</script"),
        Stop::StyleEnd => begins_small(text, b"</style"),
        Stop::TitleEnd => is_end_tag(text, b"</title"),
        Stop::TextareaEnd => is_end_tag(text, b"</textarea"),
    }
}

/// How many units stand before the first place where a run stops, or in all.
pub(crate) fn count_before(stop: Stop, text: &[u16]) -> usize
    ensures value { result ≡ length (before (stops stop) text.now) }
    ensures bound { result ≤ length text.now }
{
    let mut rest = text;
    let mut count: usize = 0;
    while !rest.is_empty() {
        if stops(stop, rest) {
            return count;
        }
        count += 1;
        (_, rest) = rest.split_at(1);
    }
    count
}

/// The units before the first place where a run stops, or all of them, and what stands behind these.
pub(crate) fn split_before(stop: Stop, text: &[u16]) -> (&[u16], &[u16])
    ensures front { result.0.now ≡ before (stops stop) text.now }
    ensures back { result.1.now ≡ drop (length (before (stops stop) text.now)) text.now }
    ensures bound { length result.0.now + length result.1.now ≡ length text.now }
{
    let count = count_before(stop, text);
    text.split_at(count)
}
