//! That the replies which an honest client tells are due.
//!
//! | what | its definition in `specs/` |
//! |---|---|
//! | a page that keeps the replies to its served calls in order until they are delivered | `DueReplies.KeepsReplies` |
//! | [`replies_are_due`] | `DueReplies.RepliesAreDue`: what an honest client tells of such pages (`rip_law_replica::truth`'s `Truthful.IsReport`) has no reply that is not due (`Truthful.IsDueReport`) |
//!
//! A layer above may rest on this: with [`rip_law_replica::truth::truth_is_served`] a session that is given any front of these batches is
//! ended by no bad report for a reply.

mod laws;

pub use laws::replies_are_due;
