//! The properties of objects: those of each hang together in the order of making, in one row of slots.
//!
//! A property is put behind all that were made, so the places of an object's properties rise. One that is taken away is
//! passed over.
//!
//! | what | its definition in `specs/` |
//! |---|---|
//! | [`Chain`] | the places of its properties: `Chains.places_of`; what stands there: `Chains.properties_of` |
//! | [`OwnProperties`] | the list of the properties that are left |
//! | chains that belong together in a row | `Chains.AreChains` |
//! | one text under two names | `Names.same_text`, `Names.place_of` |
//!
//! A layer above may rest on this: no call takes memory, and each touches one chain alone.

mod chain;
mod names;
mod own;

pub use chain::{Chain, nth, push, set_value, unlink};
pub use names::{find, same_text};
pub use own::OwnProperties;
