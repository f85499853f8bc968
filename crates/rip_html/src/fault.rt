ghost use Rattle.std.specs.Prelude.{◌≡◌, ◌<◌, ◌+◌, ◌^◌, if◌then◌else◌, option_map};
ghost use Rattle.rip_markup.specs.Fault.{fault, shifted};
ghost use Rattle.rip_html.specs.Refusals.{place_offset, own_fault, rank, is_before, least_fault};

use rip_base::PageKind;
use rip_markup::{Fault, Token};

/// A fault at the first unit of a token.
fn fault_at_once(kind: PageKind) -> Option<Fault>
    ensures { result ≡ Some (fault 0 kind) }
{
    Some(Fault { offset: 0, kind })
}

/// Where and as what a token is refused for itself.
pub(crate) fn own_fault(token: &Token) -> Option<Fault>
    ensures { result ≡ own_fault token.now }
{
    match token {
        Token::Text(run) => run.fault,
        Token::StartTag(tag) => tag.fault,
        Token::EndTag(end) if end.whole => None,
        Token::EndTag(_) | Token::Stray => fault_at_once(PageKind::BadTag),
        Token::OpenComment => fault_at_once(PageKind::OpenComment),
        Token::Comment(_) | Token::Doctype | Token::End => None,
    }
}

/// The unit of a token at which it is refused for its place.
fn place_offset(token: &Token) -> usize
    ensures { result ≡ place_offset token.now }
{
    match token {
        Token::Text(run) => run.space,
        _ => 0,
    }
}

/// The fault of a token that is refused for its place as this kind.
pub(crate) fn place_fault(kind: Option<PageKind>, token: &Token) -> Option<Fault>
    ensures { result ≡ option_map (fault (place_offset token.now)) kind }
{
    match kind {
        Some(kind) => Some(Fault {
            offset: place_offset(token),
            kind,
        }),
        None => None,
    }
}

/// The order in which the kinds at one place count.
fn rank(kind: PageKind) -> u8
    ensures { result ≡ rank kind }
{
    match kind {
        PageKind::NotUtf8 => 0,
        PageKind::MissingPart => 1,
        PageKind::BadTag => 2,
        PageKind::BadAttribute => 3,
        PageKind::DoubleAttribute => 4,
        PageKind::BadReference => 5,
        PageKind::OpenComment => 6,
        PageKind::Misnested => 7,
        PageKind::TextOutside => 8,
        PageKind::ScriptNotLast => 9,
        PageKind::ExternalScript => 10,
        PageKind::NotInSubset => 11,
        PageKind::TooNested => 12,
    }
}

/// Whether the second fault counts before the first.
fn is_before(first: &Fault, second: &Fault) -> bool
    ensures { result ≡ is_before first.now second.now }
{
    second.offset < first.offset
        || second.offset == first.offset && rank(second.kind) < rank(first.kind)
}

/// The one of two faults that counts, where there is one.
pub(crate) fn least_fault(first: Option<Fault>, second: Option<Fault>) -> Option<Fault>
    ensures { result ≡ least_fault first second }
{
    match (first, second) {
        (Some(first), Some(second)) => Some(earlier(first, second)),
        (Some(first), None) => Some(first),
        (None, second) => second,
    }
}

/// The fault of a token at this place, counted from the beginning of the page's text.
pub(crate) fn shifted(place: usize, found: Fault) -> Fault
    requires { place + found.offset < 2 ^ 64 }
    ensures { result ≡ shifted place found }
{
    Fault {
        offset: place + found.offset,
        kind: found.kind,
    }
}

/// The one of two faults that counts.
fn earlier(first: Fault, second: Fault) -> Fault
    ensures { result ≡ (if is_before first second then second else first) }
{
    if is_before(&first, &second) {
        second
    } else {
        first
    }
}
