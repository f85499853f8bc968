ghost use Rattle.rip_law_replica.specs.Laws.{AdmittedAreNext, BusyAreCut, BusyAreNotDone, CutsAreOne, DoneAreBehind, EndedAreLeft, EndsAreOne, MeaningsAreLawful, OpenedAreBegun};

/// A law, and no work: what sessions do is made in the order of their batches and of what they are given.
pub fn meanings_are_lawful<A, S>()
    ensures { MeaningsAreLawful A S }
{}

/// A law, and no work: a session that was opened is at the stage of its opening.
pub fn opened_are_begun<M, A, S>()
    ensures { OpenedAreBegun M A S }
{}

/// A law, and no work: a session that was admitted a batch is at the stage with that batch.
pub fn admitted_are_next<M, A, S>()
    ensures { AdmittedAreNext M A S }
{}

/// A law, and no work: a session is busy exactly where its last batch is not done.
pub fn busy_are_not_done<M, A, S>()
    ensures { BusyAreNotDone M A S }
{}

/// A law, and no work: a busy session is cut after the units that its last batch got.
pub fn busy_are_cut<M, A, S>()
    ensures { BusyAreCut M A S }
{}

/// A law, and no work: a session whose last batch is done, and that lives, stands behind all items of that batch.
pub fn done_are_behind<M, A, S>()
    ensures { DoneAreBehind M A S }
{}

/// A law, and no work: a session that an item ended stands where that item left it, and one for which memory was wanting where it
/// stood before the item.
pub fn ended_are_left<M, A, S>()
    ensures { EndedAreLeft M A S }
{}

/// A law, and no work: after so many units a batch is cut at one place.
pub fn cuts_are_one<A, S>()
    ensures { CutsAreOne A S }
{}

/// A law, and no work: an item ends a session in one world and with one page.
pub fn ends_are_one<A, S>()
    ensures { EndsAreOne A S }
{}
