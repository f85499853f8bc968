ghost use Rattle.rip_law_replica.specs.Truthful.{TruthIsServed};

/// A law, and no work: a session whose batches are a front of those that a truthful client tells is ended by no mismatch and
/// by no bad report.
pub fn truth_is_served<A, S>()
    ensures { TruthIsServed A S }
{}
