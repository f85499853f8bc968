//! Five rows of slots in one region, which is reserved when it is made.
//!
//! The region is cut into pages of 16 slots, and each page belongs to one row. So a row grows by the
//! next free page, its slots are numbered from 0 on as those of a list, and whatever the rows hold,
//! they share the room of all.
//!
//! | what | its definition in `specs/` |
//! |---|---|
//! | [`Pages`] | contracts see `Pages.Paged`: a list for each row, and the room |
//! | a row, and the rows with another one in its place | `Pages.row_of`, `Pages.with_row` |
//! | how many slots are used | `Pages.filled` |
//! | [`PageMemory`], the memory of all rows | contracts see `Memory.Memory`; `Memory.bytes_of` is how many bytes it takes |
//!
//! A layer above may rest on this: all memory is taken by [`PageMemory::reserve`], and a slot is never moved.

mod for_rows;
mod memory;
mod page;
mod pages;
mod property;
mod slot;

pub use for_rows::Row;
pub use memory::PageMemory;
pub use pages::Pages;
pub use property::Property;
pub use slot::Slot;
