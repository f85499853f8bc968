ghost use Rattle.rip_headline.specs.Broken.{BrokenRunsServePrefixes};
ghost use Rattle.rip_headline.specs.PrefixHistories.{CallsAreOne, HistoriesServePrefixes};
ghost use Rattle.rip_headline.specs.Lacks.{LacksAreAtCalls};
ghost use Rattle.rip_headline.specs.Matched.{ApplicationsServePrefixes};
ghost use Rattle.rip_headline.specs.ServedLists.{HistoriesServeByLists, ServeByLists};

/// A law, and no work: whatever an application is, and whatever its sessions are opened with, report and are given, they
/// serve the longest prefix of the reported calls that its script made.
pub fn applications_serve_prefixes()
    ensures { ApplicationsServePrefixes }
{}

/// A law, and no work: wherever a session of an application may want memory, an item of it reports a call. So none is
/// ended for want of memory at an event, at a reply or at its opening.
pub fn lacks_are_at_calls()
    ensures { LacksAreAtCalls }
{}

/// A law, and no work: in each legal course of an application the served calls of each session, as the entries tell them, are
/// the longest prefix of the reported ones that its script made, up to its ending, want of memory or the last turn; and
/// there is one such list.
pub fn histories_serve_prefixes()
    ensures prefix { HistoriesServePrefixes }
    ensures one { CallsAreOne }
{}

/// A law, and no work: so it is where a run of an application breaks off. What it put is a front of a history in which the
/// served calls of each session are those, up to the turn that broke off or the one before; and the calls that it put are the
/// first of them.
pub fn broken_runs_serve_prefixes()
    ensures { BrokenRunsServePrefixes }
{}

/// A law, and no work: the number of the served calls, which are told item by item, is that of two whole lists: the longest
/// prefix of the calls that the items report, up to the one at which the session ended, in which each is the call at its
/// position of those that the script made on the items before it; but for a call for whose reply there was no room, want of
/// memory, or the last turn. So it is of each session in each legal course of an application.
pub fn sessions_serve_by_lists()
    ensures lists { ServeByLists }
    ensures histories { HistoriesServeByLists }
{}
