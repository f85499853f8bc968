//! The elements of arrays in one row of slots.
//!
//! An array fills segments: slots side by side, of which the first knows what lies before it. A
//! segment that ends where the row ends is made longer; else the next one gets a sixteenth of what the
//! array has beside the slot that is filled, as far as there is more room than must be kept. No
//! element is ever moved.
//!
//! | what | its definition in `specs/` |
//! |---|---|
//! | [`Array`] | its elements: `Segments.elements_of` |
//! | arrays that belong together in a row | `Segments.AreArrays` |
//!
//! A layer above may rest on this: no call takes memory, each touches one array alone, and one that
//! grows takes no more slots than one and what is spare.

mod array;

pub use array::{Array, get, push, set};
