use rip_base::{Fault, Limit, Value};

/// How a run ends. The normal end of a script has the value undefined, and that of a function what it returns.
#[derive(Clone, Copy, Debug, PartialEq, Eq)]
pub enum Outcome {
    Value(Value),
    Thrown(Value),
    Fault(Fault),
    Limit(Limit),
    Memory,
}

/// What `resume` answers.
#[derive(Clone, Copy, Debug, PartialEq, Eq)]
pub enum Turned {
    /// The run is not at its end.
    More,
    Done(Outcome),
}
