//! That a truthful client is served: what a session does with the batches that a truthful client tells.
//!
//! | what | its definition in `specs/` |
//! |---|---|
//! | a session as it is played item by item, on paper | `Truthful.playing_of` what is done in it: `Truthful.IsPlayed`, by `rip_client`'s `Wholes.IsWhole` |
//! | what gives its replies | `Truthful.Giving`; a list of them is given one after another: `Truthful.given_in_turn` |
//! | which items an honest client tells: events that are legal; of calls and replies nothing is asked | `Truthful.IsLegal`; with replies that are due `Truthful.IsLegalAndDue` |
//! | what an honest client tells of gestures | `Truthful.IsReport`, by `rip_client`'s `Truth.TellsGesture`; with replies that are due `Truthful.IsDueReport` |
//! | [`truth_is_served`] | `Truthful.TruthIsServed`: a session that is given any front of these batches has no mismatch and no bad report |
//!
//! A layer above may rest on this: it holds of any page that serves the call which is read off it as the next
//! (`Truthful.ServesNext`), and of any replies.

mod laws;

pub use laws::truth_is_served;
