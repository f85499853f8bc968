//! What holds of each run of the program that serves an application, in a replay or at an address.
//!
//! | theorem | its definition in `specs/` |
//! |---|---|
//! | [`served_calls_match`] | `Headline.ServedCallsMatch`: unless it stops before it serves anything, a run writes the log of turns, which is a legal history, or with status 4 or 5 a prefix of it; and the served calls of each session in that history are its longest matching prefix. `PrefixHistories.CallsAreOne`: they are one list. `Headline.NoLimitIsPassed`: wherever a session stands, its heap, and while it lives its page and its runs pass no limit of the manifest |
//! | [`honest_clients_are_served`] | `Headline.HonestClientsAreServed`: in that history no session of an honest client is ended by a mismatch or a bad report |
//! | [`sessions_are_isolated`] | `Headline.SessionsAreIsolated`: a session that is given the same in that history and in another legal one does the same in both, as far as both go; what it does comes in the turn whose 1,000 units reach its cost; and a run whose turns are enough ends with status 0, or where the outside fails or memory is wanting |
//! | [`answers_are_in_order`] | `Headline.RequestsAreAnsweredInOrder`: on each connection what the turns of that log send are the answers to its requests, one each, in their order, but perhaps to the last. What a service sent is what its turns send (`rip_law_server`, `Legal.AreSent`), by [`crate::broken::serves_begin_legal`] |
//!
//! What these definitions cite, and what of it a reader may skip:
//!
//! | definition | what it says | may be skipped |
//! |---|---|---|
//! | `rip_cli` `Run.Ran`, `Laws.AreAccepted` | what the program did, by its status; the files are an application, and a trace | all but the statuses 0, 3, 4 and 5 |
//! | `rip_law_server` `Legal.AreLegal` | the turns are turns of the server model, and the log is a legal history (`rip_history` `Course.IsCourse`) of the requests that came | `made` and `streams`, for the calls |
//! | `rip_law_server` `Legal.AreGiven`, `Begun.IsGivenTo` | the turns are given the connection pieces, moments and random words of the outside, in order | all, if the input is taken as given |
//! | `PrefixHistories.ServesIn` | the calls that are served, item by item | the sums of units (`spent_by`, `comes`), which say in which turn an item comes |
//! | `CompleteHistories.IsTruthfulIn` | the admitted batches are the first of those that an honest client tells of some gestures | |
//! | `rip_law_history` `Alone.IsGivenAlike` | the same opening and batches, and as far as both go the same replies; in neither out of memory | |
//! | `rip_history` `Sessions.IsSessionOf` | each entry of a session comes in the turn of its cost (`Turns.turn_at`) | `may_lack` |
//! | `Enough.AreEnough` | so many turns are enough, by the requests and the fuel | the number itself |
//! | `rip_session` `Application.doing_of` | what the page's script does | all above the semantics of scripts |
//! | `rip_session` `Application.StandsAt`, `rip_replica` `Cuts.CutAfter` | where a session stands that is run in slices | the stage; which of the running sessions stand so [`crate::limits::sessions_stay_within`] says |
ghost use Rattle.rip_headline.specs.Headline.{HonestClientsAreServed, NoLimitIsPassed, RequestsAreAnsweredInOrder, ServedCallsMatch, SessionsAreIsolated};
ghost use Rattle.rip_headline.specs.PrefixHistories.{CallsAreOne};

/// A theorem, and no work: of each run, unless it stopped before it served anything, the output is the text of a legal history,
/// or a prefix of one, and in that the served calls of each session are its longest matching prefix, which is one list; and
/// no session passes a limit of the manifest.
pub fn served_calls_match()
    ensures served { ServedCallsMatch }
    ensures one { CallsAreOne }
    ensures limits { NoLimitIsPassed }
{}

/// A theorem, and no work: in the history that a run writes, or a prefix of it, a session whose admitted batches are those of an
/// honest client is ended by a limit, a fault, its own close or out of memory alone.
pub fn honest_clients_are_served()
    ensures { HonestClientsAreServed }
{}

/// A theorem, and no work: in the histories of two runs of an application a session that is given the same does the same, as far
/// as both go; what it does comes in slices of 1,000 units a turn; and a run with turns enough comes to its end.
pub fn sessions_are_isolated()
    ensures { SessionsAreIsolated }
{}

/// A theorem, and no work: in each run the bytes that its turns send on a connection are the answers to the requests of that
/// connection, one each, in their order, but perhaps to the last.
pub fn answers_are_in_order()
    ensures { RequestsAreAnsweredInOrder }
{}
