//! At which token a page is refused, by the grammar of pages alone.
//!
//! The layer above may rest on this: bytes that are refused as a page, and are UTF-8, are refused at the first token with
//! which no page goes on: some page begins with the tokens before it, none with these and it. So it is of each kind of
//! refusal. Where the token stands, in which part of a page and within which elements, is told by what pages go on with,
//! in one way; and there the tables of the reader below have the place and the kind.
//!
//! | what | its definition in `specs/` |
//! |---|---|
//! | tokens that begin a page of the grammar | `Fronts.BeginsPage` |
//! | where a token stands, by what a page goes on with | `Places.StandsAt` |
//! | where the tables of the reader below have such a token | `Places.standing_in` |
//! | a token without what is wrong with it itself | `Offending.mended` |
//! | at which unit a token is refused with which no page goes on | `Offending.IsRefusedBehind` |
//! | the first token with which no page goes on | `Offending.IsOffending`, of bytes `IsOffendingAt` |
//!
//! | law | its definition |
//! |---|---|
//! | [`offending_tokens_are_refused`] | `Offending.RefusedAreOffending`, `OffendingAreRefused`, `OffendingAreOne`, `StandingsAreOne` |

mod laws;

pub use laws::offending_tokens_are_refused;
