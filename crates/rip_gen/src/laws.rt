ghost use Rattle.rip_gen.specs.Plans.{PlansAreInRange};

/// The plan of each number has 4 to 32 sessions, of which one lies, and 40 gestures for each, which a batch may report.
pub fn plans_are_in_range()
    ensures { PlansAreInRange }
{}
