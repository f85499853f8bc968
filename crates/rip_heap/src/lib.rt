//! The heap of a session: the world that a script sees and changes, and what it is charged for.
//!
//! Contracts see a heap as a world, which holds the objects, the scopes and the texts, each in the order of making
//! (ECMA-262 5.1, sections 8 and 10.2). A world never changes: each call of [`Heap`] that changes a heap is one step
//! that gives a new one, with its charge. A step that would pass a limit is none, and the heap stays as it was. Its
//! memory is taken before it is made, and is a number that a contract shows. Values are converted by tables of sections 9 and 11.9.6.
//!
//! | what | its definition in `specs/` |
//! |---|---|
//! | [`Heap`] | contracts see `World.World`; `World.empty_world` is a new one |
//! | [`HeapMemory`], all memory of a heap | contracts see `Memory.Memory`; `Memory.bytes_of` is how many bytes it takes |
//! | the charge of each step | `World.charging`, and the table `World.cost_of_object` and those behind it |
//! | [`Heap::new_object`], [`Heap::new_of`], [`Heap::new_function`] | `Objects.new_object`, `Objects.new_of`, `Objects.new_function` |
//! | [`Heap::own`], [`Heap::find`], [`Heap::own_at`], [`Heap::own_properties`] | `Objects.own`, `Objects.find`, `Objects.own_at`, `Objects.own_properties` |
//! | [`Heap::put`], [`Heap::remove`] | `Objects.put`, `Objects.removed`; the indexes beside them are private, in `rip_heap_region::buckets` |
//! | arrays and scopes | `Arrays`, `Scopes`; how objects, properties, elements and scopes lie in one region is private, by `Region` |
//! | [`Heap::new_error`] | `Errors.new_error` |
//! | [`Heap::concat`], [`same_text`] | `Texts.concat`, `Names.same_text` |
//! | [`Heap::place_in_text`], [`Heap::place_of_text`] | `Search.first_place_from`; how it is found is private, by `Borders` |
//! | [`Abrupt`], why an operation has no value | `Outcome.Answers` |
//! | what a call answers of its step | `Step.Makes`, `Step.Changes`, `Step.Charges` |
//! | what every later world keeps of a world | `Growth.Grows` |
//! | [`Mark`], [`Heap::mark`], [`Heap::cut_back`], where texts are taken back | `Marks.mark_of`, `Marks.cut_world` |
//! | [`to_boolean`], [`to_number`], [`to_integer`], [`to_uint32`], [`to_int32`], [`to_text`], [`strictly_equal`] | `Conversions`, one table each |
//! | [`room_for_text`], [`room_for_numeral`] | `Conversions.room_for_text`: the limit `text`, and then the units |
//! | [`holder_of`], [`asked_of`], [`not_in_profile`] | `Holders`, for `in` and `hasOwnProperty` |
//! | [`Host`] | its own `answers` of a `Host.Request`; `Host.Gives`, `Host.Keeps` and `Host.LeavesOnRefusal` say what each call answers and keeps |
//!
//! Laws of worlds stand in `Laws`, each the contract of a function: what is put is read ([`puts_are_read`]) and changes no
//! other property ([`puts_leave_others`]), and each fixed text stands at its span ([`fixed_texts_stand`]).
//!
//! A layer above may rest on this: each call is total, and a number that is none of this heap, or of another class, is
//! a case of its definition; no object and no scope that was made is ever lost or renumbered; a prototype was made
//! before its object, so that no chain of prototypes has a cycle.
#![tactic(auto)]

mod arrays;
mod class;
mod convert;
mod errors;
mod head_slots;
mod heap;
mod holder;
mod host;
mod keys;
mod laws;
mod limits;
mod mark;
mod memory;
mod named_objects;
mod objects;
mod outcome;
mod properties;
mod region;
mod scope_slots;
mod scopes;
mod search;
mod stored;
mod texts;

pub use class::Class;
pub use convert::{
    room_for_numeral, room_for_text, strictly_equal, to_boolean, to_int32, to_integer, to_number,
    to_text, to_uint32,
};
pub use heap::Heap;
pub use holder::{Asked, Holder, asked_of, holder_of, not_in_profile};
pub use host::{EmptyHost, Host, HostDone};
pub use keys::{
    Found, Key, LookedUp, Reference, index_of, is_barred, is_index, is_named,
    is_of_object_prototype, is_underscored, look_up, looked_up,
};
pub use laws::{
    fixed_texts_stand, names_are_looked_up_along_prototypes, puts_are_read, puts_leave_others,
};
pub use limits::{HeapLimits, Used};
pub use mark::Mark;
pub use memory::HeapMemory;
pub use outcome::{Abrupt, Halt, number_done, truth_done};
pub use rip_heap_region::chains::{OwnProperties, same_text};
pub use rip_heap_region::pages::Property;
