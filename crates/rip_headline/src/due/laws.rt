ghost use Rattle.rip_headline.specs.DueReplies.{RepliesAreDue};

/// A law, and no work: where a page keeps the replies to its served calls in order until they are delivered, each reply that
/// a client tells of a user's gestures is due where it is told.
pub fn replies_are_due<A, S>()
    ensures { RepliesAreDue A S }
{}
