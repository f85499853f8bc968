ghost use Rattle.std.specs.Prelude.{◌≡◌, ◌≤◌, length, All, IfSome, IsUtf8};
ghost use Rattle.httparse.specs.Spans.{IsHeaderWithin, IsWithin, span_bytes};
ghost use Rattle.rip_http.specs.Fields.{pairs};
ghost use Rattle.rip_http.specs.Verdicts.{check, size_of, decide, verdict_of, IsVerdict};
ghost use Rattle.rip_http.specs.Stages.{verdict_in, IsJudged, IsWhole};

use crate::field::said_in;
use crate::request::{Going, Refusal, RefusedHead, Route};
use crate::routes::Routes;
use httparse::Status;
use httparse::spans::{EMPTY_HEADER_SPAN, HeaderSpan, RequestSpans, Span, parse_request};

/// The most fields of a head.
const MOST_FIELDS: usize = 64;

/// Room for the fields of most heads: a head with more is parsed again once its end is found.
const FEW_FIELDS: usize = 24;

/// The most bytes of a body.
const MOST_BODY: u64 = 65_536;

/// What comes of a head.
#[derive(Clone, Copy)]
pub(crate) enum Judged {
    Refused(RefusedHead),
    /// Where the request goes, and where its target stands in the head.
    Passed(Going, Span),
}

fn check(holds: bool, refusal: Refusal) -> Result<(), Refusal>
    ensures { result ≡ check holds refusal }
{
    if holds { Ok(()) } else { Err(refusal) }
}

/// How many bytes the body of a request has.
fn size_of(route: Route, length: Option<u64>) -> Result<u64, Refusal>
    ensures { result ≡ size_of route length }
{
    match (route, length) {
        (_, Some(n)) => Ok(n),
        (Route::Page, None) => Ok(0),
        (Route::Events | Route::Quit, None) => Err(Refusal::NoLength),
    }
}

/// The refusals of a head in their order, or where the request goes.
fn decide(
    routes: &Routes,
    head: &[u8],
    method: &[u8],
    target: &[u8],
    minor: u8,
    fields: &[HeaderSpan],
) -> Result<Going, Refusal>
    requires target { IsUtf8 target.now }
    requires fields { All (IsHeaderWithin (length head.now)) fields.now }
    ensures { result ≡ decide (record {
      method = method.now;
      target = target.now;
      minor = minor;
      fields = pairs head.now fields.now;
    }) }
{
    let said = said_in(head, fields, minor);
    check(said.host, Refusal::Head)?;
    let length = said.length?;
    let route = routes.route_of(target).ok_or(Refusal::Path)?;
    check(
        method == route.method().name(),
        Refusal::WrongMethod(route.method()),
    )?;
    check(said.uncoded, Refusal::Coding)?;
    let size = size_of(route, length)?;
    check(size <= MOST_BODY, Refusal::TooLarge)?;
    Ok(Going {
        route,
        size,
        close: said.close,
    })
}

/// What comes of a head whose parts are found.
fn judge_parts(routes: &Routes, head: &[u8], spans: &RequestSpans, fields: &[HeaderSpan]) -> Judged
    requires method { IsWithin (length head.now) spans.now.method }
    requires path { IsWithin (length head.now) spans.now.path }
    requires target { IsUtf8 (span_bytes head.now spans.now.path) }
    requires fields { All (IsHeaderWithin (length head.now)) fields.now }
    ensures verdict { verdict_in head.now result ≡ verdict_of (record {
      method = span_bytes head.now spans.now.method;
      target = span_bytes head.now spans.now.path;
      minor = spans.now.version;
      fields = pairs head.now fields.now;
    }) }
    ensures within { IsJudged (length head.now) result }
{
    let method = spans.method.of(head);
    match decide(
        routes,
        head,
        method,
        spans.path.of(head),
        spans.version,
        fields,
    ) {
        Ok(going) => Judged::Passed(going, spans.path),
        Err(refusal) => Judged::Refused(RefusedHead {
            refusal,
            bare: method == b"HEAD".as_slice(),
        }),
    }
}

/// What comes of these bytes, which stand where a head stands.
#[tactic(auto, using(crate::proofs::TargetLemmas::target_text))]
pub(crate) fn judge(routes: &Routes, head: &[u8]) -> Judged
    ensures verdict { IsVerdict head.now (verdict_in head.now result) }
    ensures within { IsJudged (length head.now) result }
{
    let mut fields = [EMPTY_HEADER_SPAN; MOST_FIELDS];
    match parse_request(head, &mut fields) {
        Ok(Status::Complete(spans)) if spans.len == head.len() => {
            judge_parts(routes, head, &spans, &fields[..spans.headers])
        }
        _ => Judged::Refused(RefusedHead {
            refusal: Refusal::Head,
            bare: false,
        }),
    }
}

/// What comes of the head with few fields that stands whole at the front of these bytes, if one does, and how many
/// bytes it has.
pub(crate) fn judge_front(routes: &Routes, bytes: &[u8]) -> Option<(usize, Judged)>
    ensures { IfSome result (λ found. IsWhole bytes.now found.0 found.1) }
{
    let mut fields = [EMPTY_HEADER_SPAN; FEW_FIELDS];
    match parse_request(bytes, &mut fields) {
        Ok(Status::Complete(spans)) => {
            let head = &bytes[..spans.len];
            let judged = judge_parts(routes, head, &spans, &fields[..spans.headers]);
            Some((spans.len, judged))
        }
        _ => None,
    }
}
