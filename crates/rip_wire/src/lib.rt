//! What goes over the wire: the batches in which a browser reports what happened, and the answers to them.
//!
//! A batch is `{"batch":N,"items":[..]}` and an answer `{"batch":N,"ended":REASON,"served":[[K,TIME,REPLY],..]}`, as JSON
//! (RFC 8259).
//!
//! | what | its definition in `specs/` |
//! |---|---|
//! | [`Batch`], [`Item`] | `Batches.contents_of` and `Items.reported_of`, what they say; `Batches.IsBatch`, when they are in range |
//! | [`read_batch`] | `Batches.Spells`: which bodies spell which batch, by `Batches.batch_value` and `Items.item_value` |
//! | [`write_batch`] | `Batches.batch_text`, that JSON with no white space |
//! | [`Answer`] | `Answers.said_of`, what it says; `Answers.IsAnswer`, when it is in range |
//! | [`write_answer`], [`answer_body`] | `Answers.answer_text`, its JSON with no white space |
//! | [`Ending::reason`], [`Reason::word`] | the tables `Reasons.reason_of` and `Reasons.reason_word` |
//! | [`write_item_list`], [`read_item_list`] | `Batches.items_text`, the items alone; `Batches.AreItems`, when they are in range |
//! | [`write_call`], [`read_call`] | `Calls.call_text`, the canonical text of `[NAME,ARGS]` |
//! | [`is_name`] | `Names.IsName` |
//!
//! A layer above may rest on this: a body is read exactly where it spells a batch in range, and as that batch alone
//! ([`bodies_tell_batches`]); each batch in range has a body ([`texts_spell_batches`]); a batch that is written is read
//! again ([`written_is_read`]); no two batches have one text, and no two answers one body ([`texts_tell_batches`],
//! [`bodies_tell_answers`]). Each call takes time in proportion to the text.
#![tactic(auto)]

mod answer;
mod body;
mod ending;
mod error;
mod gesture;
mod item;
mod items;
mod laws;
mod name;
mod parts;
mod read;
mod values;
mod write;

pub use answer::{Answer, ServedCall, ServedList};
pub use body::{answer_body, write_answer};
pub use ending::{Ending, Reason};
pub use error::{LineError, WireError};
pub use gesture::Gesture;
pub use item::{Batch, Item, ItemList, LONGEST_NAME, MOST_BATCHES, MOST_ITEMS};
pub use laws::{
    bodies_tell_answers, bodies_tell_batches, texts_spell_batches, texts_tell_batches,
    written_is_read,
};
pub use name::is_name;
pub use parts::{Call, read_call, read_item_list, write_call, write_item_list};
pub use read::read_batch;
pub use write::write_batch;
