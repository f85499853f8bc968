//! The answers of a connection, and the order in which requests are handled.
//!
//! | law | its definition in `specs/` |
//! |---|---|
//! | [`requests_are_answered`] | `Conversation.RequestsAreAnswered`: in each run of the machine the bytes that are sent on a connection are the answers to what was received on it, one each, in order: to refused heads, to what is decided at once, and to batches that are done. At most the last is left without its answer: it is still owed, or the connection is there no more |
//! | [`requests_are_by_connection`] | `Ordered.TurnsAreByConnection`: in each turn of a run the requests are handled by connection |
//!
//! What is received are the messages that the bytes of the connection spell (`Conversation.IsConversation`: `spelled`), and perhaps
//! a head that is refused. On each connection they are handled by their place in its bytes (`rip_history`, `Run.IsFirst`). A layer
//! above may rest on this.

ghost use Rattle.rip_law_server.specs.Conversation.{RequestsAreAnswered};
ghost use Rattle.rip_law_server.specs.Ordered.{TurnsAreByConnection};

/// A law, and no work: on each connection of a run what is sent are the answers to its requests and to its refused head, one each,
/// in their order, but perhaps to the last.
pub fn requests_are_answered()
    ensures { RequestsAreAnswered }
{}

/// A law, and no work: in each turn of a run the numbers of the connections whose requests are handled never fall.
pub fn requests_are_by_connection()
    ensures { TurnsAreByConnection }
{}
