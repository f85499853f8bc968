//! The outside of the machine: its files, a writer as a sink, a TCP door, its clock and its random words.
//!
//! This is the trusted edge. What the system does no clause can say; but each object tells, call by call, what it
//! answered, and so a promise over an object that tells holds of the program too, of whatever the system answered. A
//! history is noted for that by the proofs alone: it takes no memory and does nothing at run time. What will come
//! cannot be told. A count rises at each failure.
//!
//! | what | stands for | it tells, by its definition in `specs/` |
//! |---|---|---|
//! | [`HostFiles`] | the files of the machine, read whole, at most [`rip_outer::MAX_FILE`] bytes each | the names asked: `History.names_in` |
//! | [`HostSink`] | a writer, as standard output | the bytes that the writer took: `History.written_in` |
//! | [`TcpDoor`] | connections over TCP | the knocks and the connections that a send found gone: `History.told_in`; the `busy` of each knock: `History.busy_in`; the bytes sent to each connection: `History.sent_in`; the shuts: `History.shuts_in` |
//! | [`HostClock`] | the time of day, in milliseconds since the beginning of 1970 | the moments: `History.given_in` |
//! | [`HostWords`] | words from the system's random source | the words: `History.given_in` |
//! | [`real_outside`] | door, clock and words of a server | |
//!
//! Law: whatever the sockets answer, a door tells a piece or a going only of a connection that it told as opened, and
//! that is neither gone nor shut; connections are numbered in the order of their opening (`Journal.IsJournal`).
//!
//! People are told on standard error: where a server listens, once it serves; when nine tenths, ninety-nine hundredths and
//! all of the sessions of a run are opened; and, by [`say_failure`] and [`say_unread`], why the outside failed, for which
//! files, sink and door keep their last error. No clause speaks of that, and where it can't be written, nothing else changes.
//!
//! A layer above may rest on this: each meets its trait of `rip_outer`, and begins with nothing told and no failure
//! counted. Where the system gives no random numbers, door and words share why ([`RandomFailure`]): the door then fails at
//! each call and sends nothing, so that no session is opened by words that could be foreseen. A 65th connection is told only
//! once the longest idle one is told as gone; where an answer may be owed to each, it is told as it comes. Bytes that were sent to a connection were taken by the system or wait for it; a door never waits for a peer
//! that doesn't read, and gives a connection up once more than 4 MiB wait when more are sent. A connection that is shut
//! is still written to, and what it still sends is thrown away. A peer that will send no more counts as gone.
#![tactic(auto)]

mod clock;
mod door;
mod files;
mod history;
mod journal;
mod link;
mod outside;
mod random_words;
mod requests;
mod sink;
mod sockets;
mod speech;

pub use clock::HostClock;
pub use door::TcpDoor;
pub use files::{HostFiles, Unread};
pub use outside::{RealOutside, real_outside};
pub use random_words::{HostWords, RandomFailure};
pub use sink::HostSink;
pub use speech::{say_failure, say_unread};
