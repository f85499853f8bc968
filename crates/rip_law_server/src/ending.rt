//! Runs of the machine that a server follows come to their end.
//!
//! | law | its definition in `specs/` |
//! |---|---|
//! | [`runs_come_to_their_end`] | `Ending.RunsComeToEnd`: a run that is not over has made fewer turns than are enough for its knocks and its requests |
//! | [`requests_are_asked`] | `Asked.RequestsAreAsked`: no more requests are handled in a run than its knocks ask, nor than bytes come in them |
//!
//! Enough are (`Ending.turns_enough`) one turn for each knock, one in which the door is found closed, and for each request that
//! was handled, refused heads included, those in which a batch gets its units. This holds where each batch of a session
//! comes to its end within so many units (`Ending.BatchesCost`), whatever the session is given.
//!
//! A layer above may rest on this: what stands in the way of the end is counted by its input alone. Not said: that a turn
//! takes so much time, or that a door closes.

ghost use Rattle.rip_law_server.specs.Asked.{RequestsAreAsked};
ghost use Rattle.rip_law_server.specs.Ending.{RunsComeToEnd};

/// A law, and no work: a run of which none of the turns is the last has made fewer than are enough for the knocks that came and
/// the requests that were handled.
pub fn runs_come_to_their_end()
    ensures { RunsComeToEnd }
{}

/// A law, and no work: in a run no more requests are handled, refused heads included, than the bytes ask that its knocks bring
/// to the connections that they open, nor than these bytes are.
pub fn requests_are_asked()
    ensures { RequestsAreAsked }
{}
