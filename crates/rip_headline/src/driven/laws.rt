ghost use Rattle.rip_headline.specs.Driven.{DrivenAreServed, DrivenAreTold};

/// A law, and no work: the batches that gestures make, where each is legal at its place, are those that an honest client of the
/// application tells of them, with the replies of its functions; or there are none, where the opening ended the session.
pub fn driven_clients_are_honest()
    ensures { DrivenAreTold }
{}

/// A law, and no work: a session of an application whose batches are a front of those that gestures make, with the replies of
/// the application's functions, is ended by no mismatch and by no bad report.
pub fn driven_clients_are_served()
    ensures { DrivenAreServed }
{}
