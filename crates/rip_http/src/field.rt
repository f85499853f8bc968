ghost use Rattle.std.specs.Prelude.{◌≡◌, length, reverse, All, if◌then◌else◌};
ghost use Rattle.std.specs.Str.{str_eq_ignore_ascii_case};
ghost use Rattle.httparse.specs.Grammar.{skip_ows, trim_ows};
ghost use Rattle.httparse.specs.Spans.{IsHeaderWithin};
ghost use Rattle.rip_http.specs.Fields.{pairs, length_in, lists_close};
ghost use Rattle.rip_http.specs.Said.{IsKind, next_length, IsSaid};
ghost use Rattle.rip_http.specs.declared.field.Kind.TheVariants.{Other};

use crate::request::Refusal;
use httparse::is_space_or_tab;
use httparse::spans::HeaderSpan;

/// The most digits of a Content-Length.
const MOST_DIGITS: usize = 19;

/// The fields that say how a request is taken, by their names.
#[derive(Clone, Copy)]
pub(crate) enum Kind {
    Host,
    Connection,
    Length,
    Coding,
    Other,
}

/// What the fields of a head say.
#[derive(Clone, Copy)]
pub(crate) struct Said {
    /// The Host fields are as they must be.
    pub host: bool,
    /// The length that the Content-Length fields give, if there is one.
    pub length: Result<Option<u64>, Refusal>,
    /// There is no Transfer-Encoding field.
    pub uncoded: bool,
    /// The connection is to be shut behind the answer.
    pub close: bool,
}

/// Whether two texts are equal in any case.
fn is_same(a: &[u8], b: &[u8]) -> bool
    ensures { result ≡ str_eq_ignore_ascii_case a.now b.now }
{
    a.eq_ignore_ascii_case(b)
}

/// Whether a name is a known one, in any case. Most are written as the known one is.
fn is_named(name: &[u8], known: &[u8]) -> bool
    ensures { result ≡ str_eq_ignore_ascii_case name.now known.now }
{
    name == known || is_same(name, known)
}

fn kind_if(holds: bool, kind: Kind) -> Kind
    ensures { result ≡ (if holds then kind else Other) }
{
    if holds { kind } else { Kind::Other }
}

/// Which field has this name. No two names that are known have one length.
fn kind_of(name: &[u8]) -> Kind
    ensures { IsKind name.now result }
{
    match name.len() {
        4 => kind_if(is_named(name, b"Host"), Kind::Host),
        10 => kind_if(is_named(name, b"Connection"), Kind::Connection),
        14 => kind_if(is_named(name, b"Content-Length"), Kind::Length),
        17 => kind_if(is_named(name, b"Transfer-Encoding"), Kind::Coding),
        _ => Kind::Other,
    }
}

/// The number that 1 to 19 digits write.
fn read_length(value: &[u8]) -> Option<u64>
    ensures { result ≡ length_in value.now }
{
    if value.is_empty() {
        return None;
    }
    if value.len() > MOST_DIGITS {
        return None;
    }
    let mut n = 0u64;
    for b in value {
        if !b.is_ascii_digit() {
            return None;
        }
        n = n * 10 + u64::from(*b - b'0');
    }
    Some(n)
}

/// The length behind one more Content-Length field: there may be one, which is a length.
fn next_length(length: Result<Option<u64>, Refusal>, value: &[u8]) -> Result<Option<u64>, Refusal>
    ensures { result ≡ next_length length value.now }
{
    match length {
        Ok(None) => match read_length(value) {
            Some(n) => Ok(Some(n)),
            None => Err(Refusal::Head),
        },
        _ => Err(Refusal::Head),
    }
}

fn trim_start(mut s: &[u8]) -> &[u8]
    ensures { result.now ≡ skip_ows s.now }
{
    while let [first, rest @ ..] = s
        && is_space_or_tab(*first)
    {
        s = rest;
    }
    s
}

fn trim_end(mut s: &[u8]) -> &[u8]
    ensures { result.now ≡ reverse (skip_ows (reverse s.now)) }
{
    while let [rest @ .., last] = s
        && is_space_or_tab(*last)
    {
        s = rest;
    }
    s
}

/// Without the spaces and tabs at both ends.
fn trimmed(s: &[u8]) -> &[u8]
    ensures { result.now ≡ trim_ows s.now }
{
    trim_end(trim_start(s))
}

/// Whether a list has the option `close`.
fn has_close(value: &[u8]) -> bool
    ensures { result ≡ lists_close value.now }
{
    value
        .split(|b| *b == b',')
        .any(|option| is_same(trimmed(option), b"close"))
}

/// What the fields of a head say, each looked at once.
pub(crate) fn said_in(head: &[u8], fields: &[HeaderSpan], minor: u8) -> Said
    requires { All (IsHeaderWithin (length head.now)) fields.now }
    ensures { IsSaid minor (pairs head.now fields.now) result }
{
    let (mut seen, mut host) = (false, minor == 0);
    let mut length = Ok(None);
    let mut uncoded = true;
    let mut close = minor == 0;
    let mut left = fields;
    while let [field, rest @ ..] = left {
        match kind_of(field.name.of(head)) {
            Kind::Host => {
                host = !seen;
                seen = true;
            }
            Kind::Connection => close = close || has_close(field.value.of(head)),
            Kind::Length => length = next_length(length, field.value.of(head)),
            Kind::Coding => uncoded = false,
            Kind::Other => {}
        }
        left = rest;
    }
    Said {
        host,
        length,
        uncoded,
        close,
    }
}
