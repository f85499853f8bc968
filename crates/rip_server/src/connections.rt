ghost use Rattle.std.specs.Prelude.{◌≡◌, ◌||◌, if◌then◌else◌, [], ◌∷◌, ◌++◌, ℕ, ◌<◌, ◌≤◌, ◌+◌, ◌-◌, ◌^◌, length, slice_get, vec_len, Some, None, IfSome, IfNone, OnOk, IfOk, false};
ghost use Rattle.std.specs.Bool.{OnTrue, OnFalse};
ghost use Rattle.std.specs.List.{remove};
ghost use Rattle.rip_history.specs.Connections.{is_there, without, owing, no_connections, after_opened, opened_acts, after_piece, piece_acts, answer_acts};
ghost use Rattle.rip_history.specs.Run.{AreQuiet, answered_there};
ghost use Rattle.rip_http.specs.Answers.{answer_text};
ghost use Rattle.rip_server.specs.Acts.{seen, Acted};
ghost use Rattle.rip_server.specs.Links.{there_of, link_of, links_of, AreRising, AreLinks, answered_with};
ghost use Rattle.rip_server.specs.declared.connection.Connection.{Connection};
ghost use Rattle.rip_server.specs.Puts.{Counts};
ghost use Rattle.rip_server.specs.Sending.{is_gone};

use crate::connection::{Connection, Wait, is_due};
use crate::halt::Halt;
use crate::send::{Reached, send_answer};
use rip_base::NoMemory;
use rip_http::{Conn, FeedRefused, HttpAnswer};
use rip_outer::Door;
use std::alloc::Global;

/// The most connections that may be there.
pub const MOST_CONNECTIONS: usize = 64;

/// The connections that are there, in the order of their numbers, and how many were opened.
#[derive(Drop)]
pub struct Connections {
    pub list: Vec<Connection>,
    pub opened: u64,
}

/// The place of the connection of this number, if it is there.
fn place_of(list: &[Connection], number: u64) -> Option<usize>
    ensures some { IfSome result (λ place. (c : Connection) × (slice_get list.now place ≡ Some c)
        × (c.number ≡ number)) }
    ensures none { IfNone result (is_there number (there_of list.now) ≡ false) }
{
    for (place, connection) in list.iter().enumerate() {
        if connection.number == number {
            return Some(place);
        }
    }
    None
}

/// The place of the connection that waits for this session, if it is there, and what it waits for.
fn waiting_for(list: &[Connection], session: u32) -> Option<(usize, Wait)>
    ensures some { IfSome result (λ r. (c : Connection) × (slice_get list.now r.0 ≡ Some c)
        × (c.waits ≡ Some r.1) × (owing session (there_of list.now) ≡ Some (c.number, r.1.close))) }
    ensures none { IfNone result (owing session (there_of list.now) ≡ None) }
{
    for (place, connection) in list.iter().enumerate() {
        if let Some(wait) = connection.waits {
            if wait.session == session {
                return Some((place, wait));
            }
        }
    }
    None
}

impl Connections {
    pub fn make(alloc: Global) -> Connections
        ensures { links_of result ≡ no_connections }
    {
        Connections {
            list: Vec::new(alloc),
            opened: 0,
        }
    }

    /// Something is to be handled on one of them.
    pub fn are_due(&self) -> bool
        ensures due { OnTrue result (¬ AreQuiet (there_of self.now.list.items)) }
        ensures quiet { OnFalse result (AreQuiet (there_of self.now.list.items)) }
    {
        for connection in self.list.iter() {
            if is_due(connection) {
                return true;
            }
        }
        false
    }

    /// A connection is opened. Where there are as many as may be, it is shut at once. One that is not the next is none.
    pub fn open<D: Door>(&mut self, alloc: Global, door: &mut D, number: u64) -> Result<(), Halt>
        requires open_at { D.is_open door.old number }
        requires links { AreLinks (D.is_open door.old) (links_of self.old) }
        requires few { self.old.opened < 2 ^ 64 - 1 }
        ensures links { OnOk result (AreLinks (D.is_open door.new) (links_of self.new)) }
        ensures after { OnOk result (links_of self.new ≡ after_opened number (links_of self.old)) }
        ensures opened { self.new.opened ≤ self.old.opened + 1 }
        ensures acted { Acted result (opened_acts number (links_of self.old))
            (seen (D.sent door.old) (D.knocks door.old) (D.shuts door.old) (D.asked door.old) None)
            (seen (D.sent door.new) (D.knocks door.new) (D.shuts door.new) (D.asked door.new) None) }
        ensures counted { Counts result (D.count door.old) (D.count door.new) }
    {
        if number != self.opened {
            return Ok(());
        }
        self.opened += 1;
        if self.list.len() >= MOST_CONNECTIONS {
            door.shut(number);
            return Ok(());
        }
        let connection = new_connection(alloc, number)?;
        self.add(connection)?;
        Ok(())
    }

    /// Adds a connection behind the others.
    fn add(&mut self, connection: Connection) -> Result<(), NoMemory>
        ensures list { OnOk result (self.new.list.items ≡ self.old.list.items ++ connection ∷ []) }
        ensures opened { self.new.opened ≡ self.old.opened }
    {
        self.list.push(connection)?;
        Ok(())
    }

    /// A piece comes on a connection. Where it would overflow, it is shut.
    pub fn feed<D: Door>(
        &mut self,
        alloc: Global,
        door: &mut D,
        number: u64,
        piece: &[u8],
    ) -> Result<(), Halt>
        requires { AreLinks (D.is_open door.old) (links_of self.old) }
        ensures links { OnOk result (AreLinks (D.is_open door.new) (links_of self.new)) }
        ensures after { OnOk result
            (links_of self.new ≡ after_piece number piece.now (links_of self.old)) }
        ensures opened { self.new.opened ≡ self.old.opened }
        ensures acted { Acted result (piece_acts number piece.now (links_of self.old))
            (seen (D.sent door.old) (D.knocks door.old) (D.shuts door.old) (D.asked door.old) None)
            (seen (D.sent door.new) (D.knocks door.new) (D.shuts door.new) (D.asked door.new) None) }
        ensures counted { Counts result (D.count door.old) (D.count door.new) }
    {
        let Some(place) = place_of(self.list.as_slice(), number) else {
            return Ok(());
        };
        match self.list[place].conn.feed(alloc, piece) {
            Ok(()) => Ok(()),
            Err(FeedRefused::Overflow) => {
                door.shut(number);
                self.forget(place);
                Ok(())
            }
            Err(FeedRefused::Memory) => Err(Halt::Memory),
        }
    }

    /// The other side of a connection is gone.
    pub fn lose(&mut self, number: u64)
        ensures opened { self.new.opened ≡ self.old.opened }
        ensures there { (high : ℕ) → AreRising (there_of self.old.list.items) high
            → there_of self.new.list.items ≡ without number (there_of self.old.list.items) }
    {
        if let Some(place) = place_of(self.list.as_slice(), number) {
            self.forget(place);
        }
    }

    /// Forgets the connection at a place.
    fn forget(&mut self, place: usize)
        requires { place < vec_len self.old.list }
        ensures list { self.new.list.items ≡ remove self.old.list.items place }
        ensures opened { self.new.opened ≡ self.old.opened }
    {
        drop(self.list.remove(place));
    }

    /// Sends an answer on the connection at a place.
    pub fn send<D: Door>(
        &mut self,
        alloc: Global,
        door: &mut D,
        place: usize,
        answer: &HttpAnswer,
    ) -> Result<Reached, Halt>
        requires place { place < vec_len self.old.list }
        requires links { AreLinks (D.is_open door.old) (links_of self.old) }
        ensures links { OnOk result (AreLinks (D.is_open door.new) (links_of self.new)) }
        ensures opened { self.new.opened ≡ self.old.opened }
        ensures after { (c : Connection) → slice_get self.old.list.items place ≡ Some c
            → OnOk result
            (there_of self.new.list.items
            ≡ (if is_gone result || answer.now.close then without c.number
            (there_of self.old.list.items)
            else there_of self.old.list.items)) }
        ensures acted { (c : Connection) → slice_get self.old.list.items place ≡ Some c →
            Acted result (answer_acts (is_gone result) answer.now.close c.number (answer_text answer.now))
            (seen (D.sent door.old) (D.knocks door.old) (D.shuts door.old) (D.asked door.old) None)
            (seen (D.sent door.new) (D.knocks door.new) (D.shuts door.new) (D.asked door.new) None) }
        ensures counted { Counts result (D.count door.old) (D.count door.new) }
    {
        match send_answer(alloc, door, self.list[place].number, answer)? {
            Reached::Stays => Ok(Reached::Stays),
            Reached::Shut => {
                self.forget(place);
                Ok(Reached::Shut)
            }
            Reached::Gone => {
                self.forget(place);
                Ok(Reached::Gone)
            }
        }
    }

    /// Sends the answer to a batch of a session on the connection that waits for it, if that is there.
    pub fn answer<D: Door>(
        &mut self,
        alloc: Global,
        door: &mut D,
        session: u32,
        answer: HttpAnswer,
    ) -> Result<Reached, Halt>
        requires { AreLinks (D.is_open door.old) (links_of self.old) }
        ensures links { OnOk result (AreLinks (D.is_open door.new) (links_of self.new)) }
        ensures opened { self.new.opened ≡ self.old.opened }
        ensures after { let there = there_of self.old.list.items in OnOk result
            (there_of self.new.list.items ≡ answered_there (is_gone result) (owing session there)
            there) }
        ensures acted { Acted result
            (answered_with (is_gone result) (owing session (there_of self.old.list.items)) answer)
            (seen (D.sent door.old) (D.knocks door.old) (D.shuts door.old) (D.asked door.old) None)
            (seen (D.sent door.new) (D.knocks door.new) (D.shuts door.new) (D.asked door.new) None) }
        ensures counted { Counts result (D.count door.old) (D.count door.new) }
    {
        let Some((place, wait)) = waiting_for(self.list.as_slice(), session) else {
            return Ok(Reached::Stays);
        };
        self.list[place].waits = None;
        let answer = with_close(answer, wait.close);
        self.send(alloc, door, place, &answer)
    }
}

/// A connection of which nothing has come.
fn new_connection(alloc: Global, number: u64) -> Result<Connection, NoMemory>
    ensures { IfOk result (λ c. link_of c ≡ record { number = number; unread = []; owed = None }) }
{
    Ok(Connection {
        number,
        conn: Conn::make(alloc)?,
        waits: None,
    })
}

/// The answer, behind which the connection is shut or not.
fn with_close(answer: HttpAnswer, close: bool) -> HttpAnswer
    ensures { result ≡ record answer { close = close } }
{
    let mut answer = answer;
    answer.close = close;
    answer
}
