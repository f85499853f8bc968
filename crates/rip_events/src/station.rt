ghost use Rattle.std.specs.Prelude.{◌≡◌};
ghost use Rattle.rip_events.specs.Flow.{number_of};

/// The phase of a flow (DOM Level 2 Events 1.2.2): 1, 2 and 3.
#[derive(Clone, Copy, Debug, PartialEq, Eq)]
pub enum Phase {
    Capturing,
    AtTarget,
    Bubbling,
}

impl Phase {
    /// The number of the phase, as `eventPhase` tells it (DOM Level 2 Events 1.4).
    pub fn number(self) -> u8
        ensures { result ≡ number_of self }
    {
        match self {
            Phase::Capturing => 1,
            Phase::AtTarget => 2,
            Phase::Bubbling => 3,
        }
    }
}

/// A node along which a flow goes, in its phase.
#[derive(Clone, Copy, Debug)]
pub struct Station {
    pub node: u32,
    pub phase: Phase,
}

/// A call that a flow makes: of this function, at this node, in this phase; and the number of the listener whose
/// function it is.
#[derive(Clone, Copy, Debug)]
pub struct Place {
    pub node: u32,
    pub phase: Phase,
    pub function: u32,
    pub listener: u32,
}
