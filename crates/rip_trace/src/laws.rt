ghost use Rattle.rip_trace.specs.Gestures.{GesturesAreOne};
ghost use Rattle.rip_trace.specs.Traces.{TraceIsOne, RefusalIsOne};

/// A text is a trace in one way at most.
pub fn traces_are_one()
    ensures { TraceIsOne }
{}

/// A text is refused at one line at most, and a trace at none.
pub fn refusals_are_one()
    ensures { RefusalIsOne }
{}

/// A text is a file of one list of gestures at most, or is refused, at one line.
pub fn gestures_are_one()
    ensures { GesturesAreOne }
{}
