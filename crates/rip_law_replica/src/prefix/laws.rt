ghost use Rattle.rip_law_replica.specs.Prefix.{ServedAreCounted, ServedAreFirst, ServedAreMade};

/// A law, and no work: a session serves all calls that are reported before it ends, each the call of its number of those
/// that the script made on the items before; where it ends at a call more, that one may not be served.
pub fn served_are_made<F, A, S>()
    ensures { ServedAreMade F A S }
{}

/// A law, and no work: where the page counts the served calls, they are numbered from 1, one after another.
pub fn served_are_first<F, A, S>()
    ensures { ServedAreFirst F A S }
{}

/// A law, and no work: where the page counts the served calls, the position of the next one is told by that count, before
/// each item of the session.
pub fn served_are_counted<F, A, S>()
    ensures { ServedAreCounted F A S }
{}
