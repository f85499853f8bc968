ghost use Rattle.rip_history.specs.Course.{CoursesAreInOrder, CoursesCount, CoursesIsolate};
ghost use Rattle.rip_history.specs.Decisions.{AdmitsNext, ClosesIdle};
ghost use Rattle.rip_history.specs.Handlings.{HandledOnce, TurnsAreHandled};
ghost use Rattle.rip_history.specs.Requests.{AdmissionsAre, AskedIsOne, OpeningsAre};
ghost use Rattle.rip_history.specs.Sequences.{BatchesCount, EndsLast, IdentifiersDiffer, OrdinalsCount};
ghost use Rattle.rip_history.specs.Sessions.{SessionsAreAlone};
ghost use Rattle.rip_history.specs.Stages.{MeaningsKeep};
ghost use Rattle.rip_history.specs.Standings.{StandingsAreOwn, StandingsFollow};
ghost use Rattle.rip_history.specs.Turns.{DistanceIsOfCost, TurnsAreFirst, TurnsKeepOrder};

/// The law of turns: what an item does comes in the first turn by whose end the units cover its cost, and how many turns
/// that is after the admission depends on the cost alone.
pub fn turns_are_first()
    ensures first { TurnsAreFirst }
    ensures order { TurnsKeepOrder }
    ensures distance { DistanceIsOfCost }
{}

/// How a session stands is told entry by entry, by its own entries alone.
pub fn standings_follow()
    ensures follow { StandingsFollow }
    ensures own { StandingsAreOwn }
{}

/// A batch is admitted exactly where it is the next of a live session that is not busy; such a session alone is closed.
pub fn next_are_admitted()
    ensures next { AdmitsNext }
    ensures idle { ClosesIdle }
{}

/// Isolation: what a session does depends on nothing but its opening, its batches and what its served calls were given,
/// so other sessions reach it through the moments and replies alone.
pub fn sessions_are_alone()
    ensures { SessionsAreAlone }
{}

/// What has come of a session stays: nothing comes without a unit, and a batch that is admitted changes nothing that came.
pub fn meanings_keep()
    ensures { MeaningsKeep }
{}

/// A message asks one thing. What is admitted is the batch that was asked for, and the next of a live session that is not
/// busy; a session is opened with the next ordinal and the drawn identifier, which none had, while fewer live than may.
pub fn decisions_are_exact()
    ensures asked { AskedIsOne }
    ensures admissions { AdmissionsAre }
    ensures openings { OpeningsAre }
{}

/// Where each entry may come after those before it, sessions are counted from 1, and so are the batches of each; no
/// two sessions have one identifier; the entry that ends the run is the last.
pub fn sequences_count()
    ensures ordinals { OrdinalsCount }
    ensures batches { BatchesCount }
    ensures identifiers { IdentifiersDiffer }
    ensures last { EndsLast }
{}

/// Each request of a connection is handled in the first turn in which its bytes have come and the one before it is
/// answered, and these turns are one list.
pub fn requests_are_handled_once()
    ensures some { TurnsAreHandled }
    ensures one { HandledOnce }
{}

/// In a course the turns never fall, none is below 1 or above the last; sessions and batches are counted from 1, and no two
/// sessions have one identifier. A session that is given the same in two courses, over any services, does the same in both.
pub fn courses_hold()
    ensures order { CoursesAreInOrder }
    ensures counts { CoursesCount }
    ensures isolation { CoursesIsolate }
{}
