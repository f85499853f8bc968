//! A replay with enough turns comes to its end, and so does a service whose door tells its knocks.
//!
//! | law | its definition in `specs/` |
//! |---|---|
//! | [`replays_end_in_time`] | `Replays.ReplaysEndInTime`: the program, asked to replay a trace over files that are accepted, ends with status 0, or where the outside fails or memory is wanting, if its turns are enough (`rip_headline::ends`'s `Enough.AreEnough`) for the knocks of the trace |
//! | [`serves_end_in_time`] | `Replays.ServesEndInTime`: the program, asked to serve files that are accepted at a door that tells its knocks, ends so too, if its turns are enough for these |
//!
//! How many are enough is known before the run, from the knocks and the application's fuel. Nothing is said of a door that does
//! not tell its knocks.

ghost use Rattle.rip_headline.specs.Replays.{ReplaysEndInTime, ServesEndInTime};

/// A law, and no work: the replay of a trace that is one, over files that are an application, ends with status 0, or where the
/// outside fails or memory is wanting, if its turns are enough.
pub fn replays_end_in_time()
    ensures { ReplaysEndInTime }
{}

/// A law, and no work: the service of files that are an application, at a door that tells its knocks, ends with status 0, or
/// where the outside fails or memory is wanting, if its turns are enough for these knocks.
pub fn serves_end_in_time()
    ensures { ServesEndInTime }
{}
