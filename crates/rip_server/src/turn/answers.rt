ghost use Rattle.std.specs.Prelude.{◌≡◌, ◌≢◌, ℕ, Some, None, List, Option, map, option_map, IfOk, [], false, if◌then◌else◌};
ghost use Rattle.rip_http.specs.Stream.{code_of, allowed_by, refuses, IsNext};
ghost use Rattle.rip_http.specs.declared.request.Refusal.{Refusal};
ghost use Rattle.rip_http.specs.declared.request.RefusedHead.{RefusedHead};
ghost use Rattle.rip_log.specs.Entries.{Recorded};
ghost use Rattle.rip_history.specs.Answering.{json_answer, refusal_word, refusal_answer, opening_told, batch_answer, opening_answer};
ghost use Rattle.rip_history.specs.Requests.{error_body, served_in};
ghost use Rattle.rip_table.specs.Rolls.{IsKept};
ghost use Rattle.rip_server.specs.Advancing.{IsDoneSo};
ghost use Rattle.rip_server.specs.Saying.{opened_body};
ghost use Rattle.rip_wire.specs.Answers.{served_of};
ghost use Rattle.rip_wire.specs.Reasons.{reason_of};
ghost use Rattle.rip_wire.specs.declared.ending.Ending.{Ending};

use crate::turn::said::error_body;
use rip_base::{Bytes, NoMemory};
use rip_http::{Conn, HttpAnswer, Method, Opening};
use rip_table::roll::{Legacy, Roll};
use rip_wire::{Reason, ServedCall, answer_body};
use std::alloc::Global;

/// An answer of JSON.
pub(crate) fn json_answer(code: u16, body: Bytes, close: bool) -> HttpAnswer
    ensures { result ≡ json_answer code body close }
{
    HttpAnswer {
        code,
        html: false,
        allow: None,
        opening: None,
        body,
        close,
        bare: false,
    }
}

/// The answer `{"error":WORD}`.
pub(crate) fn fails(
    alloc: Global,
    code: u16,
    word: &str,
    close: bool,
) -> Result<HttpAnswer, NoMemory>
    ensures { IfOk result (λ a. a ≡ json_answer code (error_body word.now) close) }
{
    Ok(json_answer(code, error_body(alloc, word)?, close))
}

/// The word that tells the refusal of this code.
fn refusal_word(code: u16) -> &'static str
    ensures { (r : Refusal) → code ≡ code_of r → result.now ≡ refusal_word r }
{
    match code {
        431 => "fields",
        404 => "path",
        405 => "method",
        501 => "coding",
        411 => "length",
        413 => "size",
        _ => "head",
    }
}

/// The method that the refusal of this code names.
fn allowed(code: u16, method: Method) -> Option<Method>
    ensures { (r : Refusal) → code ≡ code_of r
        → (code_of r ≡ 405 → allowed_by r ≡ Some method) → result ≡ allowed_by r }
{
    if code == 405 { Some(method) } else { None }
}

/// The body of a refusal: there is none where the method is HEAD.
fn refusal_body(alloc: Global, code: u16, bare: bool) -> Result<Bytes, NoMemory>
    ensures { (r : Refusal) → code ≡ code_of r
        → IfOk result (λ body. body ≡ (if bare then [] else error_body (refusal_word r))) }
{
    if bare {
        Ok(Bytes::new(alloc))
    } else {
        error_body(alloc, refusal_word(code))
    }
}

/// The answer to a refused head, of which this code is told.
pub(crate) fn refusal_answer(alloc: Global, conn: &Conn, code: u16) -> Result<HttpAnswer, NoMemory>
    ensures { (n : ℕ) (r : RefusedHead) → IsNext conn.now (refuses n r) → code ≡ code_of r.refusal
        → IfOk result (λ a. a ≡ refusal_answer r) }
{
    let bare = conn.bare();
    Ok(HttpAnswer {
        code,
        html: false,
        allow: allowed(code, conn.allowed()),
        opening: None,
        body: refusal_body(alloc, code, bare)?,
        close: true,
        bare,
    })
}

/// The body of the answer to an opening that is done: the page, or why the session has ended.
fn opening_body(alloc: Global, page: &[u8], ended: Option<Reason>) -> Result<Bytes, NoMemory>
    ensures { (how : Option Ending) → ended ≡ option_map reason_of how
        → IfOk result (λ body. body ≡ opened_body page.now how) }
{
    match ended {
        Some(_) => answer_body(alloc, 0, ended, &[]),
        None => Bytes::from_slice(alloc, page),
    }
}

/// The answer to an opening that is done.
fn opening_answer(
    alloc: Global,
    page: &[u8],
    opening: Option<Opening>,
    ended: Option<Reason>,
) -> Result<HttpAnswer, NoMemory>
    ensures { (how : Option Ending) (n : ℕ) (h : List Recorded)
        → ended ≡ option_map reason_of how → opening ≡ opening_told n h
        → IfOk result (λ a. a ≡ opening_answer page.now n how h false) }
{
    let body = opening_body(alloc, page, ended)?;
    Ok(HttpAnswer {
        code: if ended.is_some() { 500 } else { 200 },
        html: ended.is_none(),
        allow: None,
        opening,
        body,
        close: false,
        bare: false,
    })
}

/// The opening of a session whose batch is done: that of one that lives, or what one left that the batch ended.
fn opening_of<T: Drop>(roll: &Roll<T>, session: u32, legacy: &Option<Legacy>) -> Option<Opening>
    ensures { (limit number : ℕ) (h : List Recorded) (how : Option Ending)
        → IsKept limit roll.now h → IsDoneSo how legacy.now session number h
        → result ≡ opening_told session h }
{
    match legacy {
        Some(left) => Some(left.opening),
        None => roll.opening(session),
    }
}

/// The calls that a batch that is done served: those of a session that lives, or what one left that the batch ended.
fn served_of<'a, T: Drop>(
    roll: &'a Roll<T>,
    session: u32,
    legacy: &'a Option<Legacy>,
) -> &'a [ServedCall]
    ensures { (limit number : ℕ) (h : List Recorded) (how : Option Ending)
        → IsKept limit roll.now h → IsDoneSo how legacy.now session number h
        → map served_of result.now ≡ served_in session number h }
{
    match legacy {
        Some(left) => left.told.as_slice(),
        None => roll.served(session),
    }
}

/// The answer to a batch of a session that is done; the opening is batch 0.
pub(crate) fn batch_answer<T: Drop>(
    alloc: Global,
    roll: &Roll<T>,
    page: &[u8],
    session: u32,
    number: u64,
    ended: Option<Reason>,
    legacy: &Option<Legacy>,
) -> Result<HttpAnswer, NoMemory>
    ensures { (limit : ℕ) (h : List Recorded) (how : Option Ending)
        → IsKept limit roll.now h → IsDoneSo how legacy.now session number h
        → ended ≡ option_map reason_of how
        → IfOk result (λ a. a ≡ batch_answer page.now session number how h false) }
{
    if number == 0 {
        return opening_answer(alloc, page, opening_of(roll, session, legacy), ended);
    }
    let body = answer_body(alloc, number, ended, served_of(roll, session, legacy))?;
    Ok(json_answer(200, body, false))
}
