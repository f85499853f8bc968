//! What a client asks for.
ghost use Rattle.std.specs.Prelude.{◌≡◌, ◌≢◌, ◌∷◌, ◌++◌, ℕ, List, codes, decimal, IsNone, IfSome};
ghost use Rattle.rip_trace.specs.Lines.{Asked as Request, page, report, quit};
ghost use Rattle.rip_trace.specs.Shown.{asked_of};
ghost use Rattle.rip_trace.specs.Spelling.{IsAsked, IsSession};

use crate::text::{behind, number_then, session_of};
use rip_words::numerals::read_number;

/// What a client asks for: the page, that a batch be admitted, or that a session be closed.
#[derive(Clone, Copy)]
pub(crate) enum Asked<'a> {
    Page,
    Report { session: u32, body: &'a [u8] },
    Quit { session: u32 },
}

/// What a line asks for: `get`, `e S BODY` or `q S`.
#[tactic(auto, using(crate::proofs::SayLemmas::only_report, crate::proofs::SayLemmas::only_quit, crate::proofs::SayLemmas::no_asked))]
pub(crate) fn asked_in(asks: &[u8]) -> Option<Asked<'_>>
    ensures is { IfSome result (λ a. IsAsked asks.now (asked_of a)) }
    ensures none { IsNone result → (a : Request) → ¬ IsAsked asks.now a }
{
    if asks == b"get".as_slice() {
        Some(Asked::Page)
    } else if let Some(rest) = behind(asks, b"e ") {
        report_in(rest)
    } else if let Some(rest) = behind(asks, b"q ") {
        quit_in(rest)
    } else {
        None
    }
}

/// A batch of a session: `S BODY`.
fn report_in(rest: &[u8]) -> Option<Asked<'_>>
    ensures is { IfSome result (λ a. IsAsked (codes "e " ++ rest.now) (asked_of a)) }
    ensures none { IsNone result
        → (s : ℕ) (body : List ℕ) → IsSession s → rest.now ≢ decimal s ++ 32 ∷ body }
{
    let (number, body) = number_then(rest)?;
    let session = session_of(number)?;
    Some(Asked::Report { session, body })
}

/// The end of a session: `S`.
fn quit_in(rest: &[u8]) -> Option<Asked<'_>>
    ensures is { IfSome result (λ a. IsAsked (codes "q " ++ rest.now) (asked_of a)) }
    ensures none { IsNone result → (s : ℕ) → IsSession s → rest.now ≢ decimal s }
{
    let session = session_of(read_number(rest)?)?;
    Some(Asked::Quit { session })
}
