//! Members of values (ECMA-262 5.1, sections 8.7, 8.12, 11.2.1, 11.4.1 and 11.13): what reading, writing and deleting a
//! member answers, row by row by the kind of its base.
//!
//! An access is made in steps: the base and the value in the brackets, then [`key_of`], which makes the key of the member,
//! then [`read`], [`write`] or [`delete`] with that key. What `ripley`, events and nodes have is the host's to answer:
//! a read or a write of theirs says that the host is to be asked, with the object and the name.
//!
//! | what | its definition in `specs/` |
//! |---|---|
//! | [`base_of`] | `Base.base_of`, what a value is as a base |
//! | [`key_of`] | `Keys.key_of`; `Keys.IsKeying` says what an answer means |
//! | [`read`] | `Reading.read`: `Reading.member`, one equation for each kind of base, and `Reading.read_index` |
//! | [`write`] | `Writing.write`: `Writing.written` and `Writing.write_index`; `Writing.IsWriting` says what an answer means |
//! | [`delete`] | `Deleting.deleted`: `Deleting.deleted_member` and `Deleting.delete_index`; `Deleting.IsDeleting` says what an answer means |
//! | [`builtin_of`] | `Calls.builtin_of`; the calls of texts, arrays and `Math` are the tables of `CallTable` |
//!
//! Laws stand in `Laws`, each the contract of a function: what is written to a plain object is read
//! ([`written_members_are_read`]), and so is what is written to an array ([`written_elements_are_read`]).
//!
//! A layer above may rest on this: each call is total, a number that is no object of the heap included; and where
//! nothing is written and no key is made, the heap is as before, what was charged on the way included.

mod base;
mod call_table;
mod calls;
mod deleting;
mod keys;
mod laws;
mod outcome;
mod reading;
mod writing;

pub use base::{Base, base_of};
pub use calls::builtin_of;
pub use deleting::delete;
pub use keys::key_of;
pub use laws::{written_elements_are_read, written_members_are_read};
pub use outcome::{Read, Written};
pub use reading::read;
pub use writing::write;
