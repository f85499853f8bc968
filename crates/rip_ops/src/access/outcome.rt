use rip_base::{Fault, Span, Value};

/// What reading a member gives, or that the host is to be asked for it.
#[derive(Clone, Copy, Debug, PartialEq, Eq)]
pub enum Read {
    Value(Value),
    /// A TypeError is to be thrown.
    TypeFault,
    Fault(Fault),
    Host { object: u32, name: Span },
}

/// What writing a member did, or that the host is to be asked.
#[derive(Clone, Copy, Debug, PartialEq, Eq)]
pub enum Written {
    Done,
    Host { object: u32, name: Span },
}
