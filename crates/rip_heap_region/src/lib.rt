//! The memory of a heap: five rows of slots in one region, and the lists that lie in them.
//!
//! | module | what |
//! |---|---|
//! | [`pages`] | the region: objects, properties, elements, scopes and bindings share its room, page by page |
//! | [`chains`] | the properties of objects, linked in the order of making |
//! | [`segments`] | the elements of arrays, in segments |
//! | [`buckets`] | indexes from the names of an object's properties to where they stand |
//!
//! A layer above may rest on this: each call is the same on plain lists, and takes memory only where the memory is made.
#![tactic(auto)]

pub mod buckets;
pub mod chains;
pub mod pages;
pub mod segments;
