ghost use Rattle.rip_replica.specs.Served.{ServedIsOne, ServedStepwise};

/// A law, and no work: of reported calls there is one longest prefix that the script made.
pub fn served_is_one<A, C>()
    ensures { ServedIsOne A C }
{}

/// A law, and no work: what is served of a longer list is found by the last call alone, where all before it was served.
pub fn served_stepwise<A, C>()
    ensures { ServedStepwise A C }
{}
