ghost use Rattle.rip_headline.specs.Complete.{ClientsAreServed, RepliesAreDue, TruthfulAreComplete};
ghost use Rattle.rip_headline.specs.CompleteHistories.{BrokenTruthIsServed, TruthIsServed};

/// A law, and no work: each reply that a client of an application tells is due where it is told, so its session is ended by
/// no mismatch and by no bad report.
pub fn replies_are_due()
    ensures due { RepliesAreDue }
    ensures served { ClientsAreServed }
{}

/// A law, and no work: in each run of a server of the application, a truthful client that keeps pace has each batch admitted
/// as the next, until its session ends, which it does for no lie, or memory is wanting at a request.
pub fn truthful_clients_are_complete()
    ensures { TruthfulAreComplete }
{}

/// A law, and no work: in each legal course of an application, no entry says that a session was ended by a mismatch or by a
/// bad report, where its batches that were admitted are the first of those that a truthful client tells. Nor does an entry
/// that a run put which broke off, where it is so in the history of which a front was put.
pub fn truth_is_served()
    ensures whole { TruthIsServed }
    ensures broken { BrokenTruthIsServed }
{}
