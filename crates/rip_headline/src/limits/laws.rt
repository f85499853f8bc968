ghost use Rattle.rip_headline.specs.Sessions.{SessionsStayWithin};

/// A law, and no work: in a server of an application, which stands as the machine of turns does, the heap, the page and the
/// runs of each session that lives pass no limit of the manifest.
pub fn sessions_stay_within()
    ensures { SessionsStayWithin }
{}
