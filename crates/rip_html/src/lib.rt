//! The reader of pages: how the tokens of a page nest, and which nodes they make.
//!
//! A page of the subset is HTML (13.1) that needs no mending: a doctype or none, `html`, `head` and `body`, each with its
//! tags, elements closed in the order of their nesting, and scripts at the end of the body. [`read_page`] answers the page
//! that bytes are, with its nodes in document order (DOM Level 2 Core 1.2), or the first construct that is refused, with
//! its place in bytes. How bytes are read as tokens is the work of the crate below.
//!
//! | what | its definition in `specs/` |
//! |---|---|
//! | the page that bytes are | `Pages.PageOf` |
//! | the grammar of the subset over tokens | `Grammar.AreParts`, `Grammar.page_tokens`, and `Forests` |
//! | the nodes of a page and their numbers | `Nodes.page_nodes` |
//! | the scripts of a page | `Scripts.script_numbers` |
//! | why bytes are no page | `Pages.IsRefusal` |
//! | which token is refused where it stands, and as what | `Refusals.refusal_at`, one table for each part of a page |
//! | where a token stands | `Standings.after` |
//!
//! A layer above may rest on this: bytes have at most one page, and then no refusal; else they have one refusal, and
//! [`read_page`] answers which, unless memory runs out. It takes time in proportion to the bytes, and no depth of a page
//! is too deep for it. The file `Building` of `specs/` says how nodes are made, and no public clause cites it.
#![tactic(auto)]

mod builder;
mod fault;
mod kinds;
mod part;
mod reader;
mod scripts;
mod standing;
mod tags;

pub use reader::{exactly_one, read_page};
pub use rip_markup::PageRefusal;
