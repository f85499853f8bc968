//! Requests of a connection, and the bytes of answers (RFC 9112, RFC 9110).
//!
//! A connection is a stream of bytes that comes in pieces of any size. What is asked in it is a relation between the
//! whole stream and a list of requests, of which a head that is refused is the last; no buffer and no piece is spoken
//! of there. [`Conn`] keeps the bytes that were fed and belong to no message that was taken.
//!
//! | what | its definition in `specs/` |
//! |---|---|
//! | where a head ends | `Heads.IsHeadEnd`; `Heads.head_end`, the same as a search that looks at each byte once |
//! | the fields of a head | `Fields.has_host`, `Fields.body_length`, `Fields.closes` |
//! | [`Route`] | `Routes.route_of`, `Routes.segment_of`, `Routes.method_of`; `Routing.RoutesByPath`: a router's answers are these |
//! | [`Refusal`], [`Going`] | `Verdicts.decide`: the refusals of a head in their order, or where the request goes; `Verdicts.IsVerdict` |
//! | [`Message`] | `Stream.IsNext`: what stands at the front of bytes; `Stream.Requests`: the requests of a stream, each with its size; `Stream.ends_of`: where in the stream each ends |
//! | [`Conn`] | contracts see the unread bytes |
//! | [`Conn::take_message`] | `Conns.IsTaken` |
//! | [`answer_bytes`] | `Answers.answer_text` |
//!
//! A layer above may rest on this: the requests of a stream are one list ([`requests_are_one`]); however its bytes are
//! cut and whenever messages are taken, they are that list ([`cuts_do_not_matter`]), and in mid-stream its beginning
//! ([`taken_stands`]), of those messages that end within the bytes that have come ([`ends_tell`]); what has come stays, a refusal too ([`come_stays`]); two answers with the same bytes are equal
//! ([`answers_tell_apart`]). A head that comes whole is parsed where it stands; else its end is sought, each byte looked
//! at once, and then it is parsed. [`Conn::ready`] takes no time that grows with the bytes, and a stream of messages
//! takes time in proportion to its bytes.
#![tactic(auto)]

mod answer;
mod conn;
mod field;
mod head;
mod laws;
mod request;
mod routes;
mod stage;
mod target;
mod verdict;

pub use answer::{HttpAnswer, Opening, answer_bytes};
pub use conn::{Conn, FeedRefused, MOST_UNREAD, Taken};
pub use laws::{
    answers_tell_apart, come_stays, cuts_do_not_matter, ends_tell, head_end_is_found, next_is_one,
    requests_are_one, taken_stands,
};
pub use request::{Going, Message, Method, Refusal, RefusedHead, Route};
