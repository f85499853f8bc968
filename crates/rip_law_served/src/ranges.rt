//! What the sessions of each application do is in range.
//!
//! | law | its definition in `specs/` |
//! |---|---|
//! | [`applications_mean_in_range`] | `Meant.ApplicationsMeanInRange`, by `Ranged.MeansInRange` (`rip_law_history::ranges`) |
//!
//! A call that is served is one of its batch, and an ending names the item that ended the session. The call that a mismatch
//! names as made is one that the script made, and each of those has the text of a call in range: as it is made its name is
//! judged, and so are its arguments (`rip_convert::calls_are_told`, `rip_law_browser::keeping::calls_stay_in_range`).

mod laws;

pub use laws::applications_mean_in_range;
