//! Cutting a list of items into batches.
//!
//! A batch holds at most 64 items, and its body `{"batch":N,"items":[..]}` at most 65,536 bytes. Each batch takes as many
//! of the items that are left as it can, so a batch is the longest front of them that fits.
//!
//! | what | its definition in `specs/` |
//! |---|---|
//! | [`cut`] | `Cutting.IsCut`, by how many items each batch takes; `Cutting.IsLongest`, the longest front that fits |
//! | [`has_room`], [`size_with`] | `Cutting.Fits` and `Cutting.body_size` of a batch that grows item by item
//! | [`cut_is_one`] | `Cutting.CutIsOne`: a list is cut in one way |
//!
//! A layer above may rest on this: the items are looked at by the sizes of their texts alone, each once, and nothing of a
//! batch is written to find where it ends.

mod batches;
mod front;
mod laws;

pub use batches::{LARGEST_ITEM, MOST_BYTES, cut};
pub use front::{empty_size, has_room, size_with};
pub use laws::cut_is_one;
