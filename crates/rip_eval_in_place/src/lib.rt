//! Parts that are done in place: no part of theirs is entered by itself, no cut falls in them, and no host is asked.
//!
//! An expression that reads, calculates and joins texts, or a statement that writes one name or member at most, comes to what
//! its row and those of its parts come to, without a frame for any of them. [`done`] tries it where it is worth it, and answers
//! with what the part comes to and with its units, or with none. Of any part it may be none.
//!
//! A layer above may rest on this: what is answered is what the table of the language gives, in that world and with that many
//! units; no more units are taken than there are; and where nothing is answered the heap is as before, texts that
//! were made on the way included.
//!
//! | what | its definition in `specs/` |
//! |---|---|
//! | [`done`] | `InPlace.IsDone`, by `Done.Done` of `rip_eval_rows` |
//! | a value that is had of a part | `InPlace.IsHad`; of a row `InPlace.RowIsHad` |
//! | what is done of a part, before texts are taken back | `InPlace.IsTried`; of a row `InPlace.RowIsTried` |
//! | the texts that a try adds | `AddedTexts.AddsTexts` |
#![tactic(auto)]

mod had;
mod in_place;
mod referred;

pub use in_place::done;
