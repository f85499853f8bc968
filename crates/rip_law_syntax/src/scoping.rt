//! What the names mean that the scripts of a page bind (ECMA-262 10.5, 12.14, 13).
//!
//! The layer above may rest on this: in the program of scripts each node that binds a name is resolved to a binding of it.
//! A part of `var`, a parameter and a function declaration bind their name in the scope of the nearest script or function.
//!
//! | what | its definition in `specs/` |
//! |---|---|
//! | a tree that is that of some script | `Bound.IsScriptTree` |
//! | the names that the scope of a script or a function binds | `Bound.names_bound_by` |
//! | the catch clauses around a node, within the nearest script or function | `Bound.caught` |
//! | the name of a node is bound by the nearest script or function, and which binding it means | `Bound.IsBoundAtHome` |
//! | the name of a node is the one name of a scope of its own | `Bound.IsBoundByItself` |
//!
//! | law | its definition |
//! |---|---|
//! | [`bound_names_are_resolved`] | `Bound.BoundNamesAreResolved` |
//! | [`names_are_bound_at_home`] | `Bound.NamesAreBoundAtHome`, `OwnNamesAreBound` |

mod laws;

pub use laws::{bound_names_are_resolved, names_are_bound_at_home};
