ghost use Rattle.rip_headline.specs.Enough.{ApplicationsCost, ApplicationsEndInTime, RunsEndInTime};

/// A law, and no work: a whole run at a door whose knocks are these, with turns that are enough for them, has status 0.
pub fn runs_end_in_time()
    ensures { RunsEndInTime }
{}

/// A law, and no work: whatever the sessions of an application are opened with, report and are given, each of their batches
/// comes to its end within so many units: one, and one and the fuel for each of at most 64 items.
pub fn batches_of_applications_cost()
    ensures { ApplicationsCost }
{}

/// A law, and no work: where an application is served to these knocks, and the turns are enough, they are not spent before
/// the end.
pub fn applications_are_served_in_time()
    ensures { ApplicationsEndInTime }
{}
