//! What a replay or a service puts is the text of a legal course, or a front of one.
//!
//! | law | its definition in `specs/` |
//! |---|---|
//! | [`applications_rise`] | `Prefixed.ApplicationsRise`: what `rip_law_server::going` asks of a meaning is so of each application |
//! | [`replays_begin_legal`] | `Prefixed.ReplaysBeginLegal`: the program, asked to replay a trace over files that are accepted, puts with status 0 or 3 the text of a legal course of their application and that status, and with status 4 or 5 a front of such a text, or nothing before anything was asked for but its files |
//! | [`serves_begin_legal`] | `Prefixed.ServesBeginLegal`: so it is of a service |
//!
//! The course is one of the application, of the knocks, moments and words that were told, of some turns, and of some sessions
//! that want memory at a call.

ghost use Rattle.rip_headline.specs.Prefixed.{
  ApplicationsRise,
  ReplaysBeginLegal,
  ServesBeginLegal,
};

/// A law, and no work: the parts of the sessions of each application rise in batch, item and cost.
pub fn applications_rise()
    ensures { ApplicationsRise }
{}

/// A law, and no work: the replay of a trace that is one, over files that are an application, puts the text of a legal course and
/// its status, or with status 4 or 5 a front of such a text.
pub fn replays_begin_legal()
    ensures { ReplaysBeginLegal }
{}

/// A law, and no work: the service of files that are an application puts the text of a legal course and its status, or with status
/// 4 or 5 a front of such a text.
pub fn serves_begin_legal()
    ensures { ServesBeginLegal }
{}
