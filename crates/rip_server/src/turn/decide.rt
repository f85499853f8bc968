ghost use Rattle.std.specs.Prelude.{◌≡◌, ◌<◌, ◌^◌, [], List, ℕ, Bool, true, Some, None, IfOk, IfSome, option_map};
ghost use Rattle.rip_http.specs.declared.request.Route.TheVariants.{Events as AtEvents, Quit as AtQuit};
ghost use Rattle.rip_log.specs.Entries.{Recorded, closed, entry_text};
ghost use Rattle.rip_history.specs.Decisions.{batch_decision, close_decision};
ghost use Rattle.rip_history.specs.Requests.{answers, closes, fails, gone, identifier_in, named_by, no_lack, on_batch_of, on_batch_to, on_close_of, on_drawn, opens, served_in, admits};
ghost use Rattle.rip_history.specs.Stages.{Stage};
ghost use Rattle.rip_history.specs.Standings.{standing_of, is_live};
ghost use Rattle.rip_history.specs.declared.decision.BatchDecision.TheVariants.{Admit};
ghost use Rattle.rip_history.specs.declared.decision.CloseDecision.TheVariants.{Close};
ghost use Rattle.rip_history.specs.declared.standing.Standing.{Standing as Stood};
ghost use Rattle.rip_table.specs.Rolls.{IsAtRest, IsKept, IsRollOf, IsSound};
ghost use Rattle.rip_server.specs.Deciding.{drawn_as, Tells, Comes, ComesOr, PageComes, StillComes, MessageComes};
ghost use Rattle.rip_server.specs.Turning.{source};
ghost use Rattle.rip_wire.specs.Answers.{answer_text};
ghost use Rattle.rip_wire.specs.Batches.{contents_of, IsBatch};

use crate::turn::answers::{fails, json_answer};
use crate::turn::draw::{Drawn, draw};
use crate::turn::reply::Reply;
use rip_base::{Bytes, NoMemory};
use rip_history::{BatchDecision, CloseDecision, Sessions, Standing};
use rip_http::{HttpAnswer, Message, Route};
use rip_log::{Entry, write_entry};
use rip_outer::Words;
use rip_table::roll::{Roll, Room};
use rip_wire::{Batch, Reason, WireError, answer_body, read_batch};
use std::alloc::Global;
use uuid::Uuid;

/// A turn and its moment, in milliseconds.
#[derive(Clone, Copy)]
pub(crate) struct Moment {
    pub turn: u64,
    pub time: u64,
}

/// What is decided on a request: the line of its entry, if it has one, and what comes of it for its connection.
#[derive(Drop)]
pub(crate) struct Decided {
    pub line: Option<Bytes>,
    pub reply: Reply,
}

/// The answer `{"error":WORD}` at once, and no entry.
fn refused(alloc: Global, code: u16, word: &str, close: bool) -> Result<Decided, NoMemory>
    ensures { (turn time : ℕ) → IfOk result (Tells turn time close (fails code word.now)) }
{
    Ok(Decided {
        line: None,
        reply: Reply::Now(fails(alloc, code, word, close)?),
    })
}

/// An answer of this body at once, and no entry.
fn answered(code: u16, body: Bytes, close: bool) -> Decided
    ensures { (turn time : ℕ) → Tells turn time close (answers code body) result }
{
    Decided {
        line: None,
        reply: Reply::Now(json_answer(code, body, close)),
    }
}

/// The page is asked for.
fn on_page<S: Sessions, W: Words>(
    roll: &mut Roll<S::Session>,
    alloc: Global,
    sessions: &S,
    words: &mut W,
    at: Moment,
    close: bool,
) -> Result<Decided, NoMemory>
    requires sound { IsSound roll.old }
    requires rest { IsAtRest roll.old }
    requires time { at.time < 2 ^ 53 }
    ensures sound { IsSound roll.new }
    ensures rest { IsAtRest roll.new }
    ensures comes { (limit : ℕ) (h : List Recorded) (stages : List Stage)
        → IsRollOf (S.stands sessions.now) (S.meaning sessions.now) limit roll.old h stages
        → PageComes limit at.turn at.time close h stages
        (IsRollOf (S.stands sessions.now) (S.meaning sessions.now) limit roll.new) result
        (source (W.told words.old) (W.coming words.old))
        (source (W.told words.new) (W.coming words.new)) }
{
    match roll.room() {
        Room::Full => refused(alloc, 503, "full", close),
        Room::Spent => refused(alloc, 503, "spent", close),
        Room::Free => {
            let drawn = draw(words);
            on_drawn(roll, alloc, sessions, at, close, drawn)
        }
    }
}

/// The page is asked for, there is room for a session more, and words were drawn for it.
fn on_drawn<S: Sessions>(
    roll: &mut Roll<S::Session>,
    alloc: Global,
    sessions: &S,
    at: Moment,
    close: bool,
    drawn: Drawn,
) -> Result<Decided, NoMemory>
    requires sound { IsSound roll.old }
    requires rest { IsAtRest roll.old }
    requires time { at.time < 2 ^ 53 }
    ensures sound { IsSound roll.new }
    ensures rest { IsAtRest roll.new }
    ensures comes { (limit : ℕ) (h : List Recorded) (stages : List Stage)
        → IsRollOf (S.stands sessions.now) (S.meaning sessions.now) limit roll.old h stages
        → ComesOr at.turn at.time close h stages
        (IsRollOf (S.stands sessions.now) (S.meaning sessions.now) limit roll.new)
        (on_drawn h (drawn_as drawn) no_lack) result }
{
    if roll.was_opened(drawn.id) {
        return refused(alloc, 503, "clash", close);
    }
    match roll.open(alloc, sessions, drawn.id, drawn.seed, at.time) {
        Ok(session) => opened(alloc, at, session, drawn),
        Err(NoMemory) => refused(alloc, 503, "memory", close),
    }
}

/// A session was opened.
fn opened(alloc: Global, at: Moment, session: u32, drawn: Drawn) -> Result<Decided, NoMemory>
    ensures { (close : Bool)
        → IfOk result (Tells at.turn at.time close (opens session drawn.id drawn.seed)) }
{
    let entry = Entry::Opened {
        turn: at.turn,
        session,
        id: drawn.id,
        seed: drawn.seed,
        time: at.time,
    };
    Ok(Decided {
        line: Some(write_entry(&entry, alloc)?),
        reply: Reply::Later(session),
    })
}

/// The session that a segment names.
fn named<T: Drop>(roll: &Roll<T>, segment: &[u8]) -> Option<u32>
    requires { IsSound roll.now }
    ensures { (limit : ℕ) (h : List Recorded) → IsKept limit roll.now h
        → result ≡ named_by (identifier_in segment.now) h }
{
    match Uuid::try_parse_ascii(segment) {
        Ok(id) => roll.named(id.as_u128()),
        Err(_) => None,
    }
}

/// The session has ended: its last number and the reason are told.
fn gone(alloc: Global, standing: Standing, close: bool) -> Result<Decided, NoMemory>
    ensures { (turn time : ℕ) → IfOk result (Tells turn time close (gone standing)) }
{
    let body = answer_body(alloc, standing.last, standing.ended, &[])?;
    Ok(answered(410, body, close))
}

/// A batch is sent.
fn on_batch<S: Sessions>(
    roll: &mut Roll<S::Session>,
    alloc: Global,
    sessions: &S,
    at: Moment,
    message: &Message,
) -> Result<Decided, NoMemory>
    requires sound { IsSound roll.old }
    requires rest { IsAtRest roll.old }
    requires route { message.now.route ≡ AtEvents }
    ensures sound { IsSound roll.new }
    ensures rest { IsAtRest roll.new }
    ensures comes { (limit : ℕ) (h : List Recorded) (stages : List Stage)
        → IsRollOf (S.stands sessions.now) (S.meaning sessions.now) limit roll.old h stages
        → StillComes limit at.turn at.time message.now h stages
        (IsRollOf (S.stands sessions.now) (S.meaning sessions.now) limit roll.new) result }
{
    let close = message.close;
    let asked = match read_batch(alloc, message.body.as_slice()) {
        Ok(batch) => Some(batch),
        Err(WireError::Body) => None,
        Err(WireError::Memory) => return refused(alloc, 503, "memory", close),
    };
    let Some(session) = named(roll, message.segment.as_slice()) else {
        return refused(alloc, 404, "session", close);
    };
    on_batch_to(roll, alloc, sessions, at, close, session, asked)
}

/// A batch, or a body that is none, is sent for the session of an ordinal.
fn on_batch_to<S: Sessions>(
    roll: &mut Roll<S::Session>,
    alloc: Global,
    sessions: &S,
    at: Moment,
    close: bool,
    session: u32,
    asked: Option<Batch>,
) -> Result<Decided, NoMemory>
    requires sound { IsSound roll.old }
    requires rest { IsAtRest roll.old }
    requires batch { IfSome asked (λ b. IsBatch (contents_of b)) }
    ensures sound { IsSound roll.new }
    ensures rest { IsAtRest roll.new }
    ensures comes { (limit : ℕ) (h : List Recorded) (stages : List Stage)
        → IsRollOf (S.stands sessions.now) (S.meaning sessions.now) limit roll.old h stages
        → ComesOr at.turn at.time close h stages
        (IsRollOf (S.stands sessions.now) (S.meaning sessions.now) limit roll.new)
        (on_batch_to session h (standing_of session h) (option_map contents_of asked)) result }
{
    let Some(standing) = roll.standing(session) else {
        return refused(alloc, 404, "session", close);
    };
    let Some(batch) = asked else {
        return refused(alloc, 400, "body", close);
    };
    on_batch_of(roll, alloc, sessions, at, close, session, standing, batch)
}

/// A batch is sent for a session that stands so.
fn on_batch_of<S: Sessions>(
    roll: &mut Roll<S::Session>,
    alloc: Global,
    sessions: &S,
    at: Moment,
    close: bool,
    session: u32,
    standing: Standing,
    batch: Batch,
) -> Result<Decided, NoMemory>
    requires sound { IsSound roll.old }
    requires rest { IsAtRest roll.old }
    requires batch { IsBatch (contents_of batch) }
    ensures sound { IsSound roll.new }
    ensures rest { IsAtRest roll.new }
    ensures comes { (limit : ℕ) (h : List Recorded) (stages : List Stage)
        → IsRollOf (S.stands sessions.now) (S.meaning sessions.now) limit roll.old h stages
        → standing_of session h ≡ Some standing
        → ComesOr at.turn at.time close h stages
        (IsRollOf (S.stands sessions.now) (S.meaning sessions.now) limit roll.new)
        (on_batch_of session h standing (contents_of batch) (batch_decision standing batch.number))
        result }
{
    match standing.decide_batch(batch.number) {
        BatchDecision::Repeat => repeat(roll, alloc, close, session, batch.number),
        BatchDecision::Gone => gone(alloc, standing, close),
        BatchDecision::Busy => refused(alloc, 409, "busy", close),
        BatchDecision::Old => refused(alloc, 409, "old", close),
        BatchDecision::Gap => refused(alloc, 409, "gap", close),
        BatchDecision::Admit => admit(roll, alloc, sessions, at, close, session, batch),
    }
}

/// The last batch of a session that was done is answered again.
fn repeat<T: Drop>(
    roll: &Roll<T>,
    alloc: Global,
    close: bool,
    session: u32,
    number: u64,
) -> Result<Decided, NoMemory>
    ensures { (limit turn time : ℕ) (h : List Recorded) (s : Stood) → IsKept limit roll.now h
        → standing_of session h ≡ Some s → is_live s ≡ true → s.done ≡ Some number
        → IfOk result (Tells turn time close (answers 200 (answer_text
        (record { number = number; ended = None; served = served_in session number h })))) }
{
    let body = answer_body(alloc, number, None, roll.served(session))?;
    Ok(answered(200, body, close))
}

/// The entry of a batch that is admitted.
fn admission(at: Moment, session: u32, batch: Batch) -> Entry
    ensures { result ≡ Entry.Admitted at.turn session batch }
{
    Entry::Admitted {
        turn: at.turn,
        session,
        batch,
    }
}

/// The batch of an admission.
fn batch_in(entry: Entry) -> Batch
    requires { (turn session : ℕ) × (batch : Batch) × (entry ≡ Entry.Admitted turn session batch) }
    ensures { (turn session : ℕ) (batch : Batch) → entry ≡ Entry.Admitted turn session batch
        → result ≡ batch }
{
    match entry {
        Entry::Admitted { batch, .. } => batch,
        _ => unreachable!(),
    }
}

/// A batch is admitted. Its line is written before.
fn admit<S: Sessions>(
    roll: &mut Roll<S::Session>,
    alloc: Global,
    sessions: &S,
    at: Moment,
    close: bool,
    session: u32,
    batch: Batch,
) -> Result<Decided, NoMemory>
    requires sound { IsSound roll.old }
    requires rest { IsAtRest roll.old }
    requires batch { IsBatch (contents_of batch) }
    ensures sound { IsSound roll.new }
    ensures rest { IsAtRest roll.new }
    ensures comes { (limit : ℕ) (h : List Recorded) (stages : List Stage) (s : Stood)
        → IsRollOf (S.stands sessions.now) (S.meaning sessions.now) limit roll.old h stages
        → standing_of session h ≡ Some s → batch_decision s batch.number ≡ Admit
        → ComesOr at.turn at.time close h stages
        (IsRollOf (S.stands sessions.now) (S.meaning sessions.now) limit roll.new)
        (admits session (contents_of batch)) result }
{
    let entry = admission(at, session, batch);
    let line = write_entry(&entry, alloc)?;
    match roll.admit(alloc, sessions, session, batch_in(entry)) {
        Ok(()) => Ok(Decided {
            line: Some(line),
            reply: Reply::Later(session),
        }),
        Err(_) => refused(alloc, 503, "memory", close),
    }
}

/// The end of a session is asked for.
fn on_quit<S: Sessions>(
    roll: &mut Roll<S::Session>,
    alloc: Global,
    at: Moment,
    message: &Message,
) -> Result<Decided, NoMemory>
    requires sound { IsSound roll.old }
    requires rest { IsAtRest roll.old }
    requires route { message.now.route ≡ AtQuit }
    ensures sound { IsSound roll.new }
    ensures rest { IsAtRest roll.new }
    ensures comes { (sessions : S) (limit : ℕ) (h : List Recorded) (stages : List Stage)
        → IsRollOf (S.stands sessions) (S.meaning sessions) limit roll.old h stages
        → StillComes limit at.turn at.time message.now h stages
        (IsRollOf (S.stands sessions) (S.meaning sessions) limit roll.new) result }
{
    let close = message.close;
    let Some(session) = named(roll, message.segment.as_slice()) else {
        return refused(alloc, 404, "session", close);
    };
    let Some(standing) = roll.standing(session) else {
        return refused(alloc, 404, "session", close);
    };
    on_quit_of::<S>(roll, alloc, at, close, session, standing)
}

/// The end of a session that stands so is asked for.
fn on_quit_of<S: Sessions>(
    roll: &mut Roll<S::Session>,
    alloc: Global,
    at: Moment,
    close: bool,
    session: u32,
    standing: Standing,
) -> Result<Decided, NoMemory>
    requires sound { IsSound roll.old }
    requires rest { IsAtRest roll.old }
    ensures sound { IsSound roll.new }
    ensures rest { IsAtRest roll.new }
    ensures comes { (sessions : S) (limit : ℕ) (h : List Recorded) (stages : List Stage)
        → IsRollOf (S.stands sessions) (S.meaning sessions) limit roll.old h stages
        → standing_of session h ≡ Some standing
        → IfOk result (Comes at.turn at.time close h stages
        (IsRollOf (S.stands sessions) (S.meaning sessions) limit roll.new)
        (on_close_of session standing (close_decision standing))) }
{
    match standing.decide_close() {
        CloseDecision::Gone => gone(alloc, standing, close),
        CloseDecision::Busy => refused(alloc, 409, "busy", close),
        CloseDecision::Close => quit::<S>(roll, alloc, at, close, session, standing.last),
    }
}

/// The line of the entry of a session that is closed, and the body that tells it.
fn closing(alloc: Global, at: Moment, session: u32, last: u64) -> Result<(Bytes, Bytes), NoMemory>
    ensures line { IfOk result (λ r. r.0 ≡ entry_text (closed at.turn session)) }
    ensures body { IfOk result (λ r. r.1 ≡ answer_text
        (record { number = last; ended = Some Reason.Closed; served = [] })) }
{
    let entry = Entry::Closed {
        turn: at.turn,
        session,
    };
    let line = write_entry(&entry, alloc)?;
    let body = answer_body(alloc, last, Some(Reason::Closed), &[])?;
    Ok((line, body))
}

/// A session is closed, and that is answered.
fn quit<S: Sessions>(
    roll: &mut Roll<S::Session>,
    alloc: Global,
    at: Moment,
    close: bool,
    session: u32,
    last: u64,
) -> Result<Decided, NoMemory>
    requires sound { IsSound roll.old }
    requires rest { IsAtRest roll.old }
    ensures sound { IsSound roll.new }
    ensures rest { IsAtRest roll.new }
    ensures comes { (sessions : S) (limit : ℕ) (h : List Recorded) (stages : List Stage)
        (s : Stood)
        → IsRollOf (S.stands sessions) (S.meaning sessions) limit roll.old h stages
        → standing_of session h ≡ Some s → close_decision s ≡ Close
        → IfOk result (Comes at.turn at.time close h stages
        (IsRollOf (S.stands sessions) (S.meaning sessions) limit roll.new)
        (closes session (answer_text
        (record { number = last; ended = Some Reason.Closed; served = [] })))) }
{
    let (line, body) = closing(alloc, at, session, last)?;
    roll.close::<S>(session);
    Ok(Decided {
        line: Some(line),
        reply: Reply::Now(json_answer(200, body, close)),
    })
}

/// What is decided on a message.
pub(crate) fn decide<S: Sessions, W: Words>(
    roll: &mut Roll<S::Session>,
    alloc: Global,
    sessions: &S,
    words: &mut W,
    at: Moment,
    message: &Message,
) -> Result<Decided, NoMemory>
    requires sound { IsSound roll.old }
    requires rest { IsAtRest roll.old }
    requires time { at.time < 2 ^ 53 }
    ensures sound { IsSound roll.new }
    ensures rest { IsAtRest roll.new }
    ensures comes { (limit : ℕ) (h : List Recorded) (stages : List Stage)
        → IsRollOf (S.stands sessions.now) (S.meaning sessions.now) limit roll.old h stages
        → MessageComes limit at.turn at.time message.now h stages
        (IsRollOf (S.stands sessions.now) (S.meaning sessions.now) limit roll.new) result
        (source (W.told words.old) (W.coming words.old))
        (source (W.told words.new) (W.coming words.new)) }
{
    match message.route {
        Route::Page => on_page(roll, alloc, sessions, words, at, message.close),
        Route::Events => on_batch(roll, alloc, sessions, at, message),
        Route::Quit => on_quit::<S>(roll, alloc, at, message),
    }
}
