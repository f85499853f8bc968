use rip_base::{Fault, Limit, Value};
use rip_heap::Reference;

/// How the evaluation of a part ends (ECMA-262 8.9).
#[derive(Clone, Copy, Debug, PartialEq, Eq)]
pub enum Completion {
    /// With a value; a statement has undefined.
    Normal(Value),
    Thrown(Value),
    Returned(Value),
    Broken,
    Continued,
    /// What a target means, which is a member that is not read (8.7).
    Referred(Reference),
    /// What a callee is, which was read as a member, and the value of `this` for its call (11.2.3).
    Method { function: Value, this: Value },
}

/// How a part has ended that was done at once, and how many units it has taken.
#[derive(Clone, Copy, Debug, PartialEq, Eq)]
pub struct Completed {
    pub completion: Completion,
    pub units: u64,
}

/// Why a run stops with no completion. It leaves through every open part, and nothing can catch it.
#[derive(Clone, Copy, Debug, PartialEq, Eq)]
pub enum Stop {
    Fault(Fault),
    Limit(Limit),
}
