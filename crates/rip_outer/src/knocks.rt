ghost use Rattle.std.specs.Prelude.{◌≡◌, ◌∷◌, [], IfOk};
ghost use Rattle.rip_outer.specs.Connections.{CountsKnock, FitsRoom, telling};
ghost use Rattle.rip_outer.specs.KnockLists.{FitsPiece};

use crate::connections::{Knock, TraceKnock};
use rip_base::{Bytes, NoMemory};
use std::alloc::Global;
use std::collections::VecDeque;

/// The answer that tells a knock; the bytes of a piece go to the front of the room.
pub fn answer_of(knock: &TraceKnock, room: &mut [u8; 4096]) -> Knock
    requires { FitsPiece knock.now }
    ensures told { telling result room.new ≡ knock.now ∷ [] }
    ensures fits { FitsRoom result }
    ensures calm { CountsKnock result 0 0 }
{
    match knock {
        TraceKnock::Opened(c) => Knock::Opened(*c),
        TraceKnock::Bytes(c, bytes) => {
            room[..bytes.len()].copy_from_slice(bytes.as_slice());
            Knock::Bytes(*c, bytes.len())
        }
        TraceKnock::Gone(c) => Knock::Gone(*c),
        TraceKnock::Quiet => Knock::Quiet,
    }
}

/// The same knocks once more.
pub fn copy_of_knocks(
    alloc: Global,
    knocks: &[TraceKnock],
) -> Result<VecDeque<TraceKnock>, NoMemory>
    ensures { IfOk result (λ copy. copy.items ≡ knocks.now) }
{
    let mut copy = VecDeque::new(alloc);
    for knock in knocks {
        copy.push_back(copy_of_knock(alloc, knock)?)?;
    }
    Ok(copy)
}

/// The same knock once more.
fn copy_of_knock(alloc: Global, knock: &TraceKnock) -> Result<TraceKnock, NoMemory>
    ensures { IfOk result (λ copy. copy ≡ knock.now) }
{
    Ok(match knock {
        TraceKnock::Opened(c) => TraceKnock::Opened(*c),
        TraceKnock::Bytes(c, bytes) => {
            TraceKnock::Bytes(*c, Bytes::from_slice(alloc, bytes.as_slice())?)
        }
        TraceKnock::Gone(c) => TraceKnock::Gone(*c),
        TraceKnock::Quiet => TraceKnock::Quiet,
    })
}
