//! The manifest of an application: which functions its server has, and what a session may use.
//!
//! A manifest is JSON (RFC 8259) with exactly these members: `{"version":1,"functions":{..},"limits":{..}}`, or
//! `{"version":2,"language":1,"wire":1,"functions":{..},"limits":{..}}`. A function is a member `NAME:[OP,PREFIX]`, a limit a member `LIMIT:NUMBER`; a limit that is not named has its default.
//!
//! | what | its definition in `specs/` |
//! |---|---|
//! | [`Manifest`] | contracts see `Manifest.Contents`: what is stated, the functions and the limits |
//! | [`read_manifest`] | `Manifest.ManifestOf`: which bytes are a manifest, and what it says |
//! | [`stated`]: the version, the language and the wire | `Manifest.State` of the members, by `Manifest.IsLanguage` and `Manifest.IsWire`; `Manifest.IsStatement` of bytes |
//! | why they are none ([`ManifestKind`], [`ManifestRefusal`]) | `Manifest.IsRefused`, a line for each, in order |
//! | [`ManifestKind`] as it is printed | `Printed.kind_text` |
//! | the functions ([`Functions`]): each has a name, one of six operations, and a prefix | `Functions.AreFunctions`, by `Functions.Declares` and the table `Functions.word_of` |
//! | the limits | `Limits.AreLimits`, by the tables `Limits.limit_names`, and `default` and `greatest` of rip_limits; `Limits.memory_of` |
//! | [`exactly_one`]: any bytes have one answer | `Laws.HasAnAnswer`, `Laws.HasOneAnswer` |
//! | [`memory_of_version_one_stands`] | `Laws.VersionOneStands`: the sum of a manifest of version 1 knows no replies |
//! | names and prefixes | `Names.IsName`, `Names.IsPrefix` |
//!
//! A layer above may rest on this: for any bytes one answer alone stands, a manifest or the first cause of refusal; want
//! of memory is the one refusal that no bytes cause; and the limits of a manifest are in the range of version 2. A refusal is printed by
//! the name of its kind.
#![tactic(auto)]

mod function;
mod functions;
mod law;
mod limits;
mod manifest;
mod name;
mod parts;
mod refusal;
mod statement;

pub use function::{Function, Functions, Operation};
pub use functions::MOST_FUNCTIONS;
pub use law::{exactly_one, memory_of_version_one_stands};
pub use limits::MOST_MEMORY;
pub use manifest::{Manifest, read_manifest, stated};
pub use name::MOST_LETTERS;
pub use refusal::{ManifestKind, ManifestRefusal};
pub use statement::Stated;
