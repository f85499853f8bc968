//! The lines of a trace that say what clients sent.
//!
//! | what | its definition in `specs/` |
//! |---|---|
//! | [`write_opening`] | `Said.opening_lines`: `open C`, `say C get` |
//! | [`write_batch_line`] | `Said.batch_line`: `say C e S BODY` |
//! | [`write_quiet`] | `Said.quiet_lines`: `quiet`, so many times |
//! | [`write_ended`] | `Said.ended_line`: `# ended REASON LINE` |
//!
//! A layer above may rest on this: where a call answers `Ok`, the text has gained exactly these lines.

mod said;

pub use said::{write_batch_line, write_ended, write_opening, write_quiet};
