//! What every row of the language has in common: how it is answered, what it asks of the host, and what names and errors come
//! to.
//!
//! A row function does what its part does up to the next part that it waits for, and answers with what the part does next
//! ([`give`], [`end`], [`ask`], [`ask_hosted`], [`halt`]). The contract of each says by one word
//! (`specs/Does.antt`) that what is answered is the row of the meaning. What a row asks of the host ([`ask_read`],
//! [`ask_write`], [`ask_call`]) is made at once, and counts no unit.
//!
//! A layer above may rest on this: each function is total for every heap and host, and memory is wanting only where the host
//! may want it. A row that goes on with what the host has answered is the row with its calls made (`Does.GivesValue`).
//!
//! | what | its definition in `specs/` |
//! |---|---|
//! | that what is answered is a row | `Does.Does`, `Does.DoesPurely`, `Does.DoesAnywhere` and those beside them |
//! | the same where the host may be asked | `Does.DoesWithHost`, `Does.GivesValue`, `Does.GivesWorld` |
//! | [`throw`], [`abrupt`], [`begin_name`] | `Rows/Names.throws`, `Rows/Expressions.abruptly` and `name_row` of `rip_eval_language` |
//! | [`ask_read`], [`ask_write`], [`ask_call`] | `Rows/Host.antt` of `rip_eval_language` |

mod answers;
mod host;
mod names;

pub use answers::{Answer, ask, ask_hosted, end, give, halt};
pub use host::{ask_call, ask_read, ask_write};
pub use names::{abrupt, begin_name, throw};
