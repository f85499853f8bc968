//! JSON data: values whose numbers are whole, and the one text of each (RFC 8259).
//!
//! | what | its definition in `specs/` |
//! |---|---|
//! | [`Datum`] | `Datum.tree_of`, what it stands for; `Datum.IsDatum`, when it is well made |
//! | [`copy_datum`], [`copy_list`] | what stands for the same |
//! | [`write_datum`] | `Datum.canonical_text`, the compact text of `serde_json` |
//! | [`datum_size`] | the length of that text and `Datum.nesting`, with no memory |
//! | [`read_datum`], [`read_long`] | `Reading.answer`, `Reading.answer_long`: the data or the refusal of any bytes |
//! | [`read_value`], [`datum_of`] | the value that `serde_json` reads of bytes (`Reading.value_of`), and the datum of a value |
//! | [`write_value`], [`write_list`] | a datum, and a list (`Datum.trees_in`), as a part of a larger text: `Written.tokens_of` |
//! | [`text_is_injective`] | `Laws.TextIsInjective` |
//!
//! A layer above may rest on this: what is read is well made, no two well-made data have one text, and what is written
//! is read again as the same datum ([`written_is_read`]). Each call takes time in proportion to the text, and calls
//! itself once for each level of nesting: at most 127 where it reads, and as deep as the datum that it is handed.
#![tactic(auto)]

mod copy;
mod datum;
mod error;
mod laws;
mod number;
mod read;
mod size;
mod write;

pub use copy::{copy_datum, copy_list};
pub use datum::{Datum, DatumFields, DatumList};
pub use error::DataError;
pub use laws::{text_is_injective, written_is_read, written_is_read_long};
pub use read::{MAX_DEPTH, MAX_LENGTH, datum_of, read_datum, read_long, read_value};
pub use size::{DatumSize, datum_size};
pub use write::{write_datum, write_list, write_value};
