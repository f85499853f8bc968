//! How the opening of a session is answered.
//!
//! | law | its definition in `specs/` |
//! |---|---|
//! | [`openings_are_answered`] | `Opened.OpeningsAreAnswered`: the answer that is due for batch 0, which is the opening, is the page with code 200 where its session lives, and code 500 with how it ended where it has ended (`Opened.welcome`); `Opened.OpenersAreAnswered`: in each run of the machine it is sent in the turn in which the opening is done, where the opening was asked for |
//!
//! A layer above may rest on this: the answer is told by the page, what the session was opened with (its identifier, its seed
//! and its time), how its opening was done, and whether the connection is shut behind it, and by nothing else of the history.

ghost use Rattle.rip_law_server.specs.Opened.{OpenersAreAnswered, OpeningsAreAnswered};

/// A law, and no work: an opening that is done is answered in that turn on the connection on which it was asked for, if that
/// is still there, and on no other; the answer is the page with code 200 where the session lives, and else has code 500 and
/// tells how the session ended.
pub fn openings_are_answered()
    ensures there { OpenersAreAnswered }
    ensures answer { OpeningsAreAnswered }
{}
