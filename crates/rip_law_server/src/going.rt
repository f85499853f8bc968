//! A run that breaks off is the beginning of a longer one.
//!
//! | law | its definition in `specs/` |
//! |---|---|
//! | [`broken_runs_go_on`] | `Going.BrokenRunsGoOn`: what was done in a run that breaks off is a front of what is done in one whose last turn is whole, and what it put one of the history of a legal course |
//! | [`served_begins_legal`] | `Begun.ServedBeginsLegal`: what serving put is the text of a legal course and its status, or, where it breaks off, a front of such a text |
//!
//! Both ask of what sessions do, beside its law, that its parts rise (`Rising.PartsRise`): from item to item a batch costs no
//! less, and more where a call is served. In the rest of the turn a session that comes to a call wants memory there, so nothing
//! need be known of what the call would be given; and what is still to be handled wants memory, too, or is a head that is refused,
//! and its answer finds the connection gone. Whether bytes are a head can be decided (`Deciding`). A layer above may rest on this.

ghost use Rattle.rip_law_server.specs.Begun.{ServedBeginsLegal};
ghost use Rattle.rip_law_server.specs.Going.{BrokenRunsGoOn};

/// A law, and no work: what was done in a run that breaks off is a front of what is done in one whose last turn is whole, and what it
/// put one of the history of a legal course, where the parts of what sessions do rise.
pub fn broken_runs_go_on()
    ensures { BrokenRunsGoOn }
{}

/// A law, and no work: what serving put is the text of a legal course and its status; or a front of such a text, where it breaks
/// off and the parts of what sessions do rise.
pub fn served_begins_legal()
    ensures { ServedBeginsLegal }
{}
