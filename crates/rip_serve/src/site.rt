//! An application as a site: its sessions do what its scripts do, its functions reply, so many sessions may live as its
//! limits say, and its page is what an opening gets.
//!
//! | what | its definition in `specs/` |
//! |---|---|
//! | [`serve_app`] | `Sites.ServesApp`, over `Sites.site_of_app`: `Serves` of `rip_serve`, and entries in range |
//!
//! A layer above may rest on this: want of memory before the first turn leaves door, clock, random words and sink as they
//! were.

mod serving;

pub use serving::serve_app;
