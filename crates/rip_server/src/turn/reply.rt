ghost use Rattle.std.specs.Prelude.{◌≡◌, ◌<◌, ℕ, List, Option, Some, None, slice_get, slice_set, vec_len, OnOk};
ghost use Rattle.rip_http.specs.declared.answer.HttpAnswer.{HttpAnswer as Answered};
ghost use Rattle.rip_server.specs.Acts.{seen};
ghost use Rattle.rip_server.specs.Links.{there_of, links_of, AreLinks};
ghost use Rattle.rip_server.specs.Puts.{Counts};
ghost use Rattle.rip_server.specs.declared.connection.Connection.{Connection};
ghost use Rattle.rip_server.specs.Deciding.{answer_in};
ghost use Rattle.rip_server.specs.Handling.{Replied, Stays};

use crate::{Connections, Halt, Wait};
use rip_http::HttpAnswer;
use rip_outer::Door;
use std::alloc::Global;

/// What comes of a request for its connection.
#[derive(Drop)]
pub(crate) enum Reply {
    /// It is answered at once.
    Now(HttpAnswer),
    /// It is answered when the batch of this session is done.
    Later(u32),
}

/// The connection at a place waits.
fn wait(connections: &mut Connections, place: usize, wait: Wait)
    requires { place < vec_len connections.old.list }
    ensures list { (c : Connection) → slice_get connections.old.list.items place ≡ Some c
        → connections.new.list.items
        ≡ slice_set connections.old.list.items place (record c { waits = Some wait }) }
    ensures opened { connections.new.opened ≡ connections.old.opened }
{
    connections.list[place].waits = Some(wait);
}

/// Answers the request of the connection at a place, or has it wait.
pub(crate) fn reply_to<D: Door>(
    connections: &mut Connections,
    alloc: Global,
    door: &mut D,
    place: usize,
    close: bool,
    reply: Reply,
) -> Result<(), Halt>
    requires place { place < vec_len connections.old.list }
    requires links { AreLinks (D.is_open door.old) (links_of connections.old) }
    ensures links { OnOk result (AreLinks (D.is_open door.new) (links_of connections.new)) }
    ensures opened { connections.new.opened ≡ connections.old.opened }
    ensures replied { (c : Connection) (held : Option (List ℕ))
        → slice_get connections.old.list.items place ≡ Some c
        → c.waits ≡ None → ((a : Answered) → answer_in reply ≡ Some a → a.close ≡ close)
        → Replied c.number close reply result (there_of connections.old.list.items)
        (there_of connections.new.list.items)
        (seen (D.sent door.old) (D.knocks door.old) (D.shuts door.old) (D.asked door.old) held)
        (seen (D.sent door.new) (D.knocks door.new) (D.shuts door.new) (D.asked door.new) held) }
    ensures stays { (c : Connection) → slice_get connections.old.list.items place ≡ Some c
        → c.waits ≡ None → OnOk result (Stays c.number (there_of connections.old.list.items)
        (there_of connections.new.list.items)) }
    ensures counted { Counts result (D.count door.old) (D.count door.new) }
{
    match reply {
        Reply::Now(answer) => {
            connections.send(alloc, door, place, &answer)?;
            Ok(())
        }
        Reply::Later(session) => {
            wait(connections, place, Wait { session, close });
            Ok(())
        }
    }
}
