use crate::completion::{Completion, Stop};
use crate::frame::Wait;
use crate::part::{Inner, Part};
use rip_base::Value;

/// What an open part does next, up to the next part that it waits for.
#[derive(Clone, Copy, Debug, PartialEq, Eq)]
pub enum Next {
    End(Completion),
    Halt(Stop),
    /// It waits for a part.
    Ask(Inner, Wait),
    /// The same, and the value is kept behind those that are beside its frame.
    Keep(Inner, Wait, Value),
    /// It waits for a part of a turn of a loop.
    Turn(Inner, Wait),
    /// It goes on as a part inside it, for which no unit is taken: a function that is called. That one waits for this node.
    Call(Inner, u32, Wait),
}

/// What a run that stands goes on with.
#[derive(Clone, Copy, Debug, PartialEq, Eq)]
pub enum Control {
    /// With a part whose unit is about to be taken.
    Enter(Part),
    /// With a completion, for the innermost frame.
    Give(Completion),
    /// With nothing: it has stopped, where so much depth was left. A part that was entered counts, also the one that
    /// stopped the run.
    Halted { stop: Stop, room: u32 },
}
