ghost use Rattle.rip_law_served.specs.Honest.{HonestAreServed};

/// A law, and no work: a session of an application whose batches are a front of those that a truthful client tells is ended
/// by no mismatch and by no bad report.
pub fn honest_clients_are_served()
    ensures { HonestAreServed }
{}
