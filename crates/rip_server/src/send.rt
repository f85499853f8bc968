ghost use Rattle.std.specs.Prelude.{◌≡◌, ◌≢◌, ℕ, true, false, Ok, Some, None, OnOk, IfOk, IsErrOf};
ghost use Rattle.rip_http.specs.Answers.{answer_text};
ghost use Rattle.rip_history.specs.Connections.{answer_acts};
ghost use Rattle.rip_server.specs.Acts.{seen, Acted};
ghost use Rattle.rip_server.specs.Puts.{Counts};
ghost use Rattle.rip_server.specs.Sending.{is_gone};

use crate::halt::Halt;
use rip_http::{HttpAnswer, answer_bytes};
use rip_outer::{Door, Sent};
use std::alloc::Global;

/// What became of a connection on which an answer was sent.
#[derive(Clone, Copy, Debug, PartialEq, Eq)]
pub enum Reached {
    /// It is there.
    Stays,
    /// It was shut behind the answer.
    Shut,
    /// It was found gone.
    Gone,
}

/// Sends an answer on a connection, and shuts it behind the answer where that says so.
pub fn send_answer<D: Door>(
    alloc: Global,
    door: &mut D,
    connection: u64,
    answer: &HttpAnswer,
) -> Result<Reached, Halt>
    requires { D.is_open door.old connection }
    ensures acted { Acted result
        (answer_acts (is_gone result) answer.now.close connection (answer_text answer.now))
        (seen (D.sent door.old) (D.knocks door.old) (D.shuts door.old) (D.asked door.old) None)
        (seen (D.sent door.new) (D.knocks door.new) (D.shuts door.new) (D.asked door.new) None) }
    ensures reached { IfOk result (λ reached. (reached ≡ Reached.Shut → answer.now.close ≡ true)
        × (reached ≡ Reached.Stays → answer.now.close ≡ false)) }
    ensures others { (c : ℕ) → c ≢ connection → D.is_open door.old c → D.is_open door.new c }
    ensures stays { result ≡ Ok Reached.Stays → D.is_open door.new connection }
    ensures counted { Counts result (D.count door.old) (D.count door.new) }
{
    let bytes = answer_bytes(alloc, answer)?;
    match door.send(connection, bytes.as_slice()) {
        Sent::Done => {
            if answer.close {
                door.shut(connection);
                Ok(Reached::Shut)
            } else {
                Ok(Reached::Stays)
            }
        }
        Sent::Gone => Ok(Reached::Gone),
        Sent::Failed => Err(Halt::Outside),
        Sent::Memory => Err(Halt::Memory),
    }
}
