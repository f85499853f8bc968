ghost use Rattle.rip_law_served.specs.Served.{SessionsCount, SessionsServeFirst, SessionsServePrefixes};

/// A law, and no work: a session of an application serves all calls that its browser reports before it ends, each the call
/// of its number of those that the script made on the items before; where it ends at a call more, that one may not be served.
pub fn sessions_serve_prefixes()
    ensures { SessionsServePrefixes }
{}

/// A law, and no work: these calls are numbered from 1, one after another, so they are the first that the script made.
pub fn sessions_serve_first()
    ensures { SessionsServeFirst }
{}

/// A law, and no work: before each item of such a session the position of the next call is one more than the browser has
/// counted.
pub fn sessions_count()
    ensures { SessionsCount }
{}
