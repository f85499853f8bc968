ghost use Rattle.std.specs.Prelude.{◌≡◌, ◌<◌, ◌≤◌, ◌+◌, ◌-◌, ◌^◌, List, ℕ, Option, None, OnOk, IfOk};
ghost use Rattle.rip_outer.specs.Connections.{FitsRoom};
ghost use Rattle.rip_history.specs.Connections.{after_knock, knock_acts};
ghost use Rattle.rip_history.specs.Run.{State};
ghost use Rattle.rip_history.specs.Runs.{IsAsking};
ghost use Rattle.rip_table.specs.Rolls.{IsAtRest, IsKept};
ghost use Rattle.rip_server.specs.Acts.{seen, Acted};
ghost use Rattle.rip_server.specs.Links.{links_of, AreLinks};
ghost use Rattle.rip_server.specs.Puts.{Counts};
ghost use Rattle.rip_server.specs.Asking.{IsClosedBy, KnocksSo, knock_of};

use crate::{Connections, Halt};
use rip_outer::{Door, Knock};
use rip_table::roll::Roll;
use std::alloc::Global;

/// Something is to be done: a session is busy, or something is to be handled on a connection.
pub(crate) fn is_asking<T: Drop>(connections: &Connections, roll: &Roll<T>) -> bool
    requires { IsAtRest roll.now }
    ensures { (limit : ℕ) (s : State) → links_of connections.now ≡ s.connections
        → IsKept limit roll.now s.history → IsAsking s result }
{
    roll.is_busy() || connections.are_due()
}

/// What is done at a knock that the door told, with the bytes that came in the room.
fn take_knock<D: Door>(
    connections: &mut Connections,
    alloc: Global,
    door: &mut D,
    knock: Knock,
    room: &[u8; 4096],
) -> Result<bool, Halt>
    requires links { AreLinks (D.is_open door.old) (links_of connections.old) }
    requires few { connections.old.opened < 2 ^ 64 - 1 }
    requires fits { FitsRoom knock }
    requires opens { (c : ℕ) → knock ≡ Knock.Opened c → D.is_open door.old c }
    ensures links { OnOk result (AreLinks (D.is_open door.new) (links_of connections.new)) }
    ensures opened { connections.new.opened ≤ connections.old.opened + 1 }
    ensures closed { IfOk result (λ closed. IsClosedBy closed (knock_of knock room.now)) }
    ensures after { OnOk result (links_of connections.new
        ≡ after_knock (knock_of knock room.now) (links_of connections.old)) }
    ensures acted { Acted result (knock_acts (knock_of knock room.now) (links_of connections.old))
        (seen (D.sent door.old) (D.knocks door.old) (D.shuts door.old) (D.asked door.old) None)
        (seen (D.sent door.new) (D.knocks door.new) (D.shuts door.new) (D.asked door.new) None) }
    ensures counted { Counts result (D.count door.old) (D.count door.new) }
{
    match knock {
        Knock::Opened(number) => connections.open(alloc, door, number)?,
        Knock::Bytes(number, count) => connections.feed(alloc, door, number, &room[..count])?,
        Knock::Gone(number) => connections.lose(number),
        Knock::Closed => return Ok(true),
        Knock::Quiet | Knock::Failed => {}
    }
    Ok(false)
}

/// A knock at the door, which is asked so. Whether the door is closed.
pub(crate) fn knock<D: Door>(
    connections: &mut Connections,
    alloc: Global,
    door: &mut D,
    busy: bool,
) -> Result<bool, Halt>
    requires links { AreLinks (D.is_open door.old) (links_of connections.old) }
    requires few { connections.old.opened < 2 ^ 64 - 1 }
    ensures links { OnOk result (AreLinks (D.is_open door.new) (links_of connections.new)) }
    ensures opened { connections.new.opened ≤ connections.old.opened + 1 }
    ensures knocked { (s : State) (held : Option (List ℕ))
        → links_of connections.old ≡ s.connections
        → IsAsking s busy → KnocksSo s result (λ k. links_of connections.new ≡ k)
        (seen (D.sent door.old) (D.knocks door.old) (D.shuts door.old) (D.asked door.old) held)
        (seen (D.sent door.new) (D.knocks door.new) (D.shuts door.new) (D.asked door.new) held) }
    ensures counted { Counts result (D.count door.old) (D.count door.new) }
{
    let mut room = [0u8; 4096];
    match door.next(&mut room, busy) {
        Knock::Failed => Err(Halt::Outside),
        knock => take_knock(connections, alloc, door, knock, &room),
    }
}
