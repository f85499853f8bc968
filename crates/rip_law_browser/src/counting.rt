//! The runs of the machine count their units, so that a session may rest on it.
//!
//! | law | its definition in `specs/` |
//! |---|---|
//! | [`machines_count`] | `Counts.MachinesCount` |

mod laws;

pub use laws::machines_count;
