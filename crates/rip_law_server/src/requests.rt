//! The requests that a trace means.
//!
//! A line `say ..` of a trace stands for bytes (`rip_trace`), and a server finds requests in bytes (`rip_http`). That the
//! one request that is found is the one that is meant is a law of the two definitions ([`requests_are_meant`]).
//!
//! | what | its definition in `specs/` |
//! |---|---|
//! | the message that a line means | `Meant.meant` |
//! | [`requests_are_meant`] | `Meant.RequestsAreMeant` |

mod law;

pub use law::requests_are_meant;
