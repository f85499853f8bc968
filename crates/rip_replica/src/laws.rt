ghost use Rattle.rip_replica.specs.Plays.{RunsWant};

/// A law, and no work: a run of any rows leaves no more units than it had, and one that is cut wants one more at least.
pub fn runs_want<S>()
    ensures { RunsWant S }
{}
