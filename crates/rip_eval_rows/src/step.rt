use crate::close::Close;
use rip_base::Value;

/// What a step of a plan begins a run of.
#[derive(Clone, Copy, Debug, PartialEq, Eq)]
pub enum Opening {
    /// This script of the page, which are numbered from 1.
    Script(u32),
    /// The call of this object from outside a script (ECMA-262 13.2.1), with one argument or none.
    Call {
        function: u32,
        this: Value,
        argument: Option<Value>,
    },
}

/// What a plan does next.
#[derive(Clone, Copy, Debug, PartialEq, Eq)]
pub enum Step {
    Over(Close),
    /// It takes a unit that is no fuel, after which the fuel is full again.
    Take,
    /// It waits until the outside has changed the host.
    Await,
    /// It begins a run for this item, counted from 1, with the fuel that is left to the item.
    Run { item: u32, opening: Opening },
}

/// Where a plan stands that is gone on with.
#[derive(Clone, Copy, Debug, PartialEq, Eq)]
pub enum Phase {
    /// The planner is asked next.
    Asking,
    /// A unit that is no fuel is about to be taken.
    Taking,
    /// The outside is waited for.
    Awaiting,
    /// A run of this item goes on.
    Running { item: u32 },
    Over(Close),
}
