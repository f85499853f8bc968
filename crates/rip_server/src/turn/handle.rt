ghost use Rattle.std.specs.Prelude.{◌≡◌, ◌<◌, ◌^◌, ◌∷◌, ◌++◌, [], List, ℕ, Option, Some, None, slice_get, slice_set, vec_len, OnOk, IfOk};
ghost use Rattle.rip_http.specs.Conns.{IsTaken};
ghost use Rattle.rip_http.specs.Stream.{refuses, IsNext, code_of};
ghost use Rattle.rip_http.specs.declared.answer.HttpAnswer.{HttpAnswer as Answered};
ghost use Rattle.rip_http.specs.declared.request.RefusedHead.{RefusedHead};
ghost use Rattle.rip_log.specs.Entries.{Recorded};
ghost use Rattle.rip_history.specs.Run.{Site, IsQuiet, AreQuiet};
ghost use Rattle.rip_history.specs.Stages.{Stage};
ghost use Rattle.rip_table.specs.Rolls.{IsAtRest, IsRollOf, IsSound};
ghost use Rattle.rip_server.specs.Acts.{seen};
ghost use Rattle.rip_server.specs.Links.{link_of, links_of, there_of, AreLinks};
ghost use Rattle.rip_server.specs.Puts.{Counts, Logged};
ghost use Rattle.rip_server.specs.declared.connection.Connection.{Connection};
ghost use Rattle.rip_server.specs.Deciding.{answer_in, IsLine};
ghost use Rattle.rip_server.specs.Handling.{state_of, AreAt, weight_from, Settled, Stays, Refused, Messaged, HandledSo, IsQuietBefore};
ghost use Rattle.rip_server.specs.Turning.{Faults, source};

use crate::turn::answers::refusal_answer;
use crate::turn::decide::{Decided, Moment, decide};
use crate::turn::reply::reply_to;
use crate::{Connections, Halt, is_due, put_line};
use rip_base::Bytes;
use rip_history::Sessions;
use rip_http::{Message, Taken};
use rip_outer::{Door, Sink, Words};
use rip_table::roll::Roll;
use std::alloc::Global;

/// Puts a line, if there is one.
fn put_some<K: Sink>(out: &mut K, line: Option<Bytes>) -> Result<(), Halt>
    ensures put { (es : List Recorded) → IsLine line es
        → Logged result es (K.held out.old) (K.held out.new) }
    ensures counted { Counts result (K.count out.old) (K.count out.new) }
{
    match line {
        Some(line) => put_line(out, line),
        None => Ok(()),
    }
}

/// Answers the refused head on the connection at a place, which is shut behind it.
fn refuse<D: Door>(
    connections: &mut Connections,
    alloc: Global,
    door: &mut D,
    place: usize,
    code: u16,
) -> Result<(), Halt>
    requires place { place < vec_len connections.old.list }
    requires links { AreLinks (D.is_open door.old) (links_of connections.old) }
    requires refused { (c : Connection) → slice_get connections.old.list.items place ≡ Some c
        → (n : ℕ) × (r : RefusedHead) × IsNext c.conn (refuses n r) × (code ≡ code_of r.refusal) }
    ensures links { OnOk result (AreLinks (D.is_open door.new) (links_of connections.new)) }
    ensures opened { connections.new.opened ≡ connections.old.opened }
    ensures refused { (c : Connection) (n : ℕ) (r : RefusedHead) (held : Option (List ℕ))
        → slice_get connections.old.list.items place ≡ Some c
        → IsNext c.conn (refuses n r) → code ≡ code_of r.refusal
        → Refused c.number r result (there_of connections.old.list.items)
        (there_of connections.new.list.items)
        (seen (D.sent door.old) (D.knocks door.old) (D.shuts door.old) (D.asked door.old) held)
        (seen (D.sent door.new) (D.knocks door.new) (D.shuts door.new) (D.asked door.new) held) }
    ensures counted { Counts result (D.count door.old) (D.count door.new) }
{
    let answer = refusal_answer(alloc, &connections.list[place].conn, code)?;
    connections.send(alloc, door, place, &answer)?;
    Ok(())
}

/// Puts the entry of what was decided, and answers the request of the connection at a place or has it wait.
fn settle<D: Door, K: Sink>(
    connections: &mut Connections,
    alloc: Global,
    door: &mut D,
    out: &mut K,
    place: usize,
    close: bool,
    decided: Decided,
) -> Result<(), Halt>
    requires place { place < vec_len connections.old.list }
    requires links { AreLinks (D.is_open door.old) (links_of connections.old) }
    ensures links { OnOk result (AreLinks (D.is_open door.new) (links_of connections.new)) }
    ensures opened { connections.new.opened ≡ connections.old.opened }
    ensures settled { (c : Connection) (es : List Recorded)
        → slice_get connections.old.list.items place ≡ Some c → c.waits ≡ None
        → IsLine decided.line es
        → ((a : Answered) → answer_in decided.reply ≡ Some a → a.close ≡ close)
        → Settled c.number close es decided.reply result (there_of connections.old.list.items)
        (there_of connections.new.list.items)
        (seen (D.sent door.old) (D.knocks door.old) (D.shuts door.old)
        (D.asked door.old) (K.held out.old))
        (seen (D.sent door.new) (D.knocks door.new) (D.shuts door.new)
        (D.asked door.new) (K.held out.new)) }
    ensures stays { (c : Connection) → slice_get connections.old.list.items place ≡ Some c
        → c.waits ≡ None → OnOk result (Stays c.number (there_of connections.old.list.items)
        (there_of connections.new.list.items)) }
    ensures faults { Faults result (D.count door.old) (D.count door.new)
        (K.count out.old) (K.count out.new) }
{
    put_some(out, decided.line)?;
    reply_to(connections, alloc, door, place, close, decided.reply)
}

/// Handles a message that was taken from the connection at a place.
fn on_message<S: Sessions, D: Door, W: Words, K: Sink>(
    connections: &mut Connections,
    roll: &mut Roll<S::Session>,
    alloc: Global,
    sessions: &S,
    door: &mut D,
    words: &mut W,
    out: &mut K,
    at: Moment,
    place: usize,
    message: Message,
) -> Result<(), Halt>
    requires place { place < vec_len connections.old.list }
    requires links { AreLinks (D.is_open door.old) (links_of connections.old) }
    requires free { (c : Connection) → slice_get connections.old.list.items place ≡ Some c
        → c.waits ≡ None }
    requires sound { IsSound roll.old }
    requires rest { IsAtRest roll.old }
    requires time { at.time < 2 ^ 53 }
    ensures links { OnOk result (AreLinks (D.is_open door.new) (links_of connections.new)) }
    ensures opened { connections.new.opened ≡ connections.old.opened }
    ensures sound { IsSound roll.new }
    ensures rest { IsAtRest roll.new }
    ensures stays { (c : Connection) → slice_get connections.old.list.items place ≡ Some c
        → OnOk result (Stays c.number (there_of connections.old.list.items)
        (there_of connections.new.list.items)) }
    ensures handled { (limit : ℕ) (h : List Recorded) (stages : List Stage) (c : Connection)
        → IsRollOf (S.stands sessions.now) (S.meaning sessions.now) limit roll.old h stages
        → slice_get connections.old.list.items place ≡ Some c
        → Messaged limit at.turn at.time c.number message h stages
        (IsRollOf (S.stands sessions.now) (S.meaning sessions.now) limit roll.new) result
        (there_of connections.old.list.items) (there_of connections.new.list.items)
        (seen (D.sent door.old) (D.knocks door.old) (D.shuts door.old)
        (D.asked door.old) (K.held out.old))
        (seen (D.sent door.new) (D.knocks door.new) (D.shuts door.new)
        (D.asked door.new) (K.held out.new))
        (source (W.told words.old) (W.coming words.old))
        (source (W.told words.new) (W.coming words.new)) }
    ensures faults { Faults result (D.count door.old) (D.count door.new)
        (K.count out.old) (K.count out.new) }
{
    let decided = decide(roll, alloc, sessions, words, at, &message)?;
    settle(connections, alloc, door, out, place, message.close, decided)
}

/// What stands at the front of the connection at a place; a message is taken.
fn take_front(connections: &mut Connections, alloc: Global, place: usize) -> Taken
    requires { place < vec_len connections.old.list }
    ensures taken { (c : Connection) → slice_get connections.old.list.items place ≡ Some c
        → (left : List ℕ) × IsTaken c.conn left result
        × (connections.new.list.items
        ≡ slice_set connections.old.list.items place (record c { conn = left })) }
    ensures opened { connections.new.opened ≡ connections.old.opened }
{
    connections.list[place].conn.take_message(alloc)
}

/// Handles what stands at the front of the connection at a place.
fn handle_at<S: Sessions, D: Door, W: Words, K: Sink>(
    connections: &mut Connections,
    roll: &mut Roll<S::Session>,
    alloc: Global,
    sessions: &S,
    door: &mut D,
    words: &mut W,
    out: &mut K,
    at: Moment,
    place: usize,
) -> Result<(), Halt>
    requires place { place < vec_len connections.old.list }
    requires links { AreLinks (D.is_open door.old) (links_of connections.old) }
    requires due { (c : Connection) → slice_get connections.old.list.items place ≡ Some c
        → ¬ IsQuiet (link_of c) }
    requires sound { IsSound roll.old }
    requires rest { IsAtRest roll.old }
    requires time { at.time < 2 ^ 53 }
    ensures links { OnOk result (AreLinks (D.is_open door.new) (links_of connections.new)) }
    ensures opened { connections.new.opened ≡ connections.old.opened }
    ensures sound { IsSound roll.new }
    ensures rest { IsAtRest roll.new }
    ensures less { OnOk result (weight_from place (there_of connections.new.list.items)
        < weight_from place (there_of connections.old.list.items)) }
    ensures handled { (site : Site) (h : List Recorded) (stages : List Stage)
        → IsRollOf (S.stands sessions.now) (S.meaning sessions.now) site.limit roll.old h stages
        → IsQuietBefore place (state_of (links_of connections.old) h stages)
        → HandledSo site at.turn at.time (state_of (links_of connections.old) h stages) result
        (λ _ s. AreAt (S.stands sessions.now) (S.meaning sessions.now) site.limit
        connections.new roll.new s × IsQuietBefore place s)
        (seen (D.sent door.old) (D.knocks door.old) (D.shuts door.old)
        (D.asked door.old) (K.held out.old))
        (seen (D.sent door.new) (D.knocks door.new) (D.shuts door.new)
        (D.asked door.new) (K.held out.new))
        (source (W.told words.old) (W.coming words.old))
        (source (W.told words.new) (W.coming words.new)) }
    ensures faults { Faults result (D.count door.old) (D.count door.new)
        (K.count out.old) (K.count out.new) }
{
    match take_front(connections, alloc, place) {
        Taken::Message(message) => on_message(
            connections,
            roll,
            alloc,
            sessions,
            door,
            words,
            out,
            at,
            place,
            message,
        ),
        Taken::Refused(code) => refuse(connections, alloc, door, place, code),
        Taken::NotYet => Ok(()),
        Taken::Memory => Err(Halt::Memory),
    }
}

/// Handles what stands at the front of the connection at a place, or looks on. The place to look at next.
fn look_at<S: Sessions, D: Door, W: Words, K: Sink>(
    connections: &mut Connections,
    roll: &mut Roll<S::Session>,
    alloc: Global,
    sessions: &S,
    door: &mut D,
    words: &mut W,
    out: &mut K,
    at: Moment,
    place: usize,
) -> Result<usize, Halt>
    requires place { place < vec_len connections.old.list }
    requires links { AreLinks (D.is_open door.old) (links_of connections.old) }
    requires sound { IsSound roll.old }
    requires rest { IsAtRest roll.old }
    requires time { at.time < 2 ^ 53 }
    ensures links { OnOk result (AreLinks (D.is_open door.new) (links_of connections.new)) }
    ensures opened { connections.new.opened ≡ connections.old.opened }
    ensures sound { IsSound roll.new }
    ensures rest { IsAtRest roll.new }
    ensures less { IfOk result (λ next. weight_from next (there_of connections.new.list.items)
        < weight_from place (there_of connections.old.list.items)) }
    ensures handled { (site : Site) (h : List Recorded) (stages : List Stage)
        → IsRollOf (S.stands sessions.now) (S.meaning sessions.now) site.limit roll.old h stages
        → IsQuietBefore place (state_of (links_of connections.old) h stages)
        → HandledSo site at.turn at.time (state_of (links_of connections.old) h stages) result
        (λ next s. AreAt (S.stands sessions.now) (S.meaning sessions.now) site.limit
        connections.new roll.new s × IsQuietBefore next s)
        (seen (D.sent door.old) (D.knocks door.old) (D.shuts door.old)
        (D.asked door.old) (K.held out.old))
        (seen (D.sent door.new) (D.knocks door.new) (D.shuts door.new)
        (D.asked door.new) (K.held out.new))
        (source (W.told words.old) (W.coming words.old))
        (source (W.told words.new) (W.coming words.new)) }
    ensures faults { Faults result (D.count door.old) (D.count door.new)
        (K.count out.old) (K.count out.new) }
{
    if !is_due(&connections.list[place]) {
        return Ok(place + 1);
    }
    handle_at(
        connections,
        roll,
        alloc,
        sessions,
        door,
        words,
        out,
        at,
        place,
    )?;
    Ok(place)
}

/// Handles each request that is there.
pub(crate) fn handle_all<S: Sessions, D: Door, W: Words, K: Sink>(
    connections: &mut Connections,
    roll: &mut Roll<S::Session>,
    alloc: Global,
    sessions: &S,
    door: &mut D,
    words: &mut W,
    out: &mut K,
    at: Moment,
) -> Result<(), Halt>
    requires links { AreLinks (D.is_open door.old) (links_of connections.old) }
    requires sound { IsSound roll.old }
    requires rest { IsAtRest roll.old }
    requires time { at.time < 2 ^ 53 }
    ensures links { OnOk result (AreLinks (D.is_open door.new) (links_of connections.new)) }
    ensures opened { connections.new.opened ≡ connections.old.opened }
    ensures sound { IsSound roll.new }
    ensures rest { IsAtRest roll.new }
    ensures handled { (site : Site) (h : List Recorded) (stages : List Stage)
        → IsRollOf (S.stands sessions.now) (S.meaning sessions.now) site.limit roll.old h stages
        → HandledSo site at.turn at.time (state_of (links_of connections.old) h stages) result
        (λ _ s. AreAt (S.stands sessions.now) (S.meaning sessions.now) site.limit
        connections.new roll.new s × AreQuiet (let k = s.connections in k.there))
        (seen (D.sent door.old) (D.knocks door.old) (D.shuts door.old)
        (D.asked door.old) (K.held out.old))
        (seen (D.sent door.new) (D.knocks door.new) (D.shuts door.new)
        (D.asked door.new) (K.held out.new))
        (source (W.told words.old) (W.coming words.old))
        (source (W.told words.new) (W.coming words.new)) }
    ensures faults { Faults result (D.count door.old) (D.count door.new)
        (K.count out.old) (K.count out.new) }
{
    let mut place = 0;
    while place < connections.list.len() {
        place = look_at(
            connections,
            roll,
            alloc,
            sessions,
            door,
            words,
            out,
            at,
            place,
        )?;
    }
    Ok(())
}
