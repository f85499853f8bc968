//! The page behind the script: what the evaluator asks of the document, its nodes, its events and `ripley`, and the flow
//! of an event as a plan.
//!
//! A [`Browser`] is the host of a page's script: the document, the states of its controls, its listeners, the events that
//! were dispatched, the calls that the script made and the replies to them, the moment and the random word. Contracts see
//! it as the record of its fields. Each request of the evaluator has one answer, a value, a TypeError, a code, a fault or
//! a limit, with the heap and the browser after it.
//!
//! | what | its definition in `specs/` |
//! |---|---|
//! | [`Browser`] as a host | `Answers.answers`, over one table for each kind of object and what is asked |
//! | whose members an object has | `Owners.owner_of` |
//! | members and calls of nodes | those of `rip_nodes`; controls `FormMembers`, listeners `Listening` |
//! | [`EventMember`], [`bubbles`], [`can_be_cancelled`] | `EventMembers` |
//! | `ripley.call`, `ripley.now`, `ripley.random` | `Answers.called`, `Ripley.ripley_call`, `Ripley.random_call` |
//! | [`Browser::serve`] | `Replies.call_served`: the call that is next is taken, and its reply waits if it has a callback |
//! | [`Undelivered`] | contracts see the list of replies, of each its tree ([`KeptReply`]), and the most that there may be: `Waiting.Waiting`; [`Undelivered::due`] and [`Undelivered::take_due`] `Replies.due`, `Replies.without_reply_to` |
//! | [`Browser::make`] | `Opening.Begins` |
//! | [`Browser::open_event`], [`Browser::event_at`], [`Browser::stopped`], [`Browser::prevented`] | `Flow.event_opened`, `Flow.reached`, `Flow.is_stopped`, `Flow.is_prevented` |
//! | the flow of an event as a plan | `Flow.flow`; what is left of one under way, `Flow.flow_left` |
//! | [`next_call`] | `Flow.flow_ahead`: the next call and what is left behind it |
//! | [`Events`] | contracts see `Events.Occurred` |
//! | the heaps that a browser goes with, and what each answer keeps | `Visit.Fits`, `Visit.KeepsBrowser` |
//!
//! A layer above may rest on this: a browser is a host, so that what is proved of the evaluator for every host holds with
//! it; no call but the maker takes memory, and none answers want of it; a fault and a limit leave all as it was; what is
//! left of a flow is its next call and what is left behind that, whatever listeners did to the document, the listeners
//! and the controls.
#![tactic(auto)]

mod browser;
mod call;
mod dispatch;
mod event_members;
mod events;
mod flow;
mod form_members;
mod hosted;
mod listening;
mod opening;
mod owner;
mod replies;
mod ripley;

pub use browser::Browser;
pub use call::HostCall;
pub use event_members::{EventMember, bubbles, can_be_cancelled};
pub use events::{Event, Events};
pub use flow::next_call;
pub use form_members::FormMember;
pub use listening::Handler;
pub use owner::Owner;
pub use replies::{KeptReply, Undelivered, WaitingReply};
