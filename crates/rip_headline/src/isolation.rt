//! How far a session goes that is given the same in two runs.
//!
//! | law | its definition in `specs/` |
//! |---|---|
//! | [`sessions_go_alike`] | `Alike.DoneGoNoFurther`: a session that is given the same in two runs, and for which nothing is left to do in the one, does no more in the other; `Alike.ShorterStopped`: where it does more in the other, the one stopped before the session's last batch was done; `Alike.EndedAreAlike`: in two runs that stop with 0 it does the same, is given the same and is answered the same, to the end |
//! | [`shorter_runs_are_short`] | `Due.ShorterIsShort`: where it does more in the other, the one made fewer turns than that in which what it does next there is due: as many turns after the admission of its batch; `Due.ApplicationsAsk`: what that asks of what sessions do beside its law is so of each application |
//!
//! A layer above may rest on this: by `rip_law_history::runs::runs_isolate` a session that is given the same in two runs does the same in
//! both as far as both go; these laws say how far that is. Not said: how far it goes where it wants memory in one of them.

ghost use Rattle.rip_headline.specs.Alike.{DoneGoNoFurther, EndedAreAlike, ShorterStopped};
ghost use Rattle.rip_headline.specs.LeftToDo.{ApplicationsAsk, ShorterIsShort};

/// A law, and no work: of two runs that give a session the same the one has it do less only where that one stopped before the
/// session's last batch was done; where both stop with nothing left to do, it does the same in both, to the end.
pub fn sessions_go_alike()
    ensures no_further { DoneGoNoFurther }
    ensures stopped { ShorterStopped }
    ensures ended { EndedAreAlike }
{}

/// A law, and no work: of two runs that give a session the same the one that has it do less stopped before the turn in which
/// what it does next in the other is due, where what sessions do asks before it reads, and costs no less from item to item: so
/// does each application.
pub fn shorter_runs_are_short()
    ensures due { ShorterIsShort }
    ensures applications { ApplicationsAsk }
{}
