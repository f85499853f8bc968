ghost use Rattle.std.specs.Prelude.{◌≡◌, false, get_or, IfOk, length};
ghost use Rattle.std.specs.List.{AllByRecursion};
ghost use Rattle.rip_outer.specs.MemoryDoor.{hushed_by};
ghost use Rattle.rip_cli.specs.TraceDoor.{IsWithin};

use rip_base::NoMemory;
use rip_outer::{Door, Knock, KnockList, Sent, TraceKnock, answer_of, copy_of_knocks};
use std::alloc::Global;
use std::collections::VecDeque;
use std::marker::Model;

/// The door at which the knocks of a trace come, a piece or a going of a connection that was shut as a quiet one. Behind the
/// last it is closed. It tells what came and what is left, and no more: what is sent is let go. None of its calls fails, and
/// no send finds its connection gone. The room for what came is taken when it is made.
#[derive(Debug, Drop)]
pub struct TraceDoor {
    came: Vec<TraceKnock>,
    left: VecDeque<TraceKnock>,
    shut: Vec<bool>,
}

impl Model for TraceDoor {
    ghost use Rattle.std.specs.Prelude.{vec_capacity};
    ghost use Rattle.rip_cli.specs.TraceDoor.{Bringing, IsKept};

    ghost Value = { Bringing };

    ghost view = { λ d. record { came = d.came.items; left = d.left.items; shut = d.shut.items } };

    ghost invariant = { λ d. IsKept d.came.items (vec_capacity d.came) d.left.items d.shut.items };
}

impl TraceDoor {
    ghost use Rattle.std.specs.Prelude.{◌≡◌, [], IfOk};
    ghost use Rattle.rip_cli.specs.TraceDoor.{left_of};

    /// The door at which these knocks come.
    pub fn make(alloc: Global, knocks: &KnockList) -> Result<TraceDoor, NoMemory>
        ensures left { IfOk result (λ door. left_of door ≡ knocks.now) }
        ensures came { IfOk result (λ door. door.came ≡ []) }
    {
        let knocks = knocks.as_slice();
        let left = copy_of_knocks(alloc, knocks)?;
        let shut = vec![in alloc; false; knocks.len()]?;
        let came = Vec::with_capacity(alloc, knocks.len())?;
        Ok(TraceDoor { came, left, shut })
    }
}

impl Door for TraceDoor {
    ghost use Rattle.std.specs.Prelude.{◌<◌, None, length};
    ghost use Rattle.rip_cli.specs.TraceDoor.{telling_of};

    ghost knocks = { telling_of };

    ghost asked = { λ _. None };

    ghost sent = { λ _ _. None };

    ghost shuts = { λ _. None };

    ghost is_open = { λ d c. c < length d.shut };

    ghost count = { λ _. 0 };

    fn faults(&self) -> u64 {
        0
    }

    fn next(&mut self, room: &mut [u8; 4096], _busy: bool) -> Knock {
        match self.left.pop_front() {
            Some(knock) => {
                let knock = hush(&self.shut, knock);
                let answer = answer_of(&knock, room);
                self.came.push_reserved(knock);
                answer
            },
            None => Knock::Closed,
        }
    }

    fn send(&mut self, _c: u64, _bytes: &[u8]) -> Sent {
        Sent::Done
    }

    fn shut(&mut self, c: u64) {
        self.shut[c as usize] = true;
    }
}

/// Whether a connection was shut, by these marks.
fn is_shut(shut: &[bool], c: u64) -> bool
    ensures { result ≡ get_or shut.now c false }
{
    matches!(shut.get(c as usize), Some(true))
}

/// The knock as it comes: a piece or a going of a connection that was shut is quiet.
fn hush(shut: &[bool], knock: TraceKnock) -> TraceKnock
    ensures { result ≡ hushed_by shut.now knock }
{
    match knock {
        TraceKnock::Bytes(c, _) | TraceKnock::Gone(c) if is_shut(shut, c) => TraceKnock::Quiet,
        knock => knock,
    }
}
