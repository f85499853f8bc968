//! A script alone, for whoever writes a page: its tokens, its tree, or what a run of it comes to, as text.
//!
//! [`script`] does what the program `script` does, over any files and sink: a line for each token; or a line for each node
//! of the tree; or how a run ends, what it takes and what the names of the top scope hold; or the one line that says why
//! the script is refused, with the place in its units. Its contract says what each status means. Early errors are looked
//! at for a run alone. A run is that of the evaluator, with nothing behind the objects of the host.
//!
//! | what | its definition in `specs/` |
//! |---|---|
//! | the words of the command line | `Words.IsTask` |
//! | what the program did, by its [`Status`] | `Run.Ran` |
//! | the text of tokens, and that of a tree | `Texts.tokens_text`, `Texts.tree_text`, and the table `Forms.form_word` |
//! | what a run comes to, and its text | `Evaluation.IsEvaluated`, `Report.run_text` |
//! | why a script is refused, and the line that says so | `Given.RefusesBytes`, `Given.refusal_line` |
#![tactic(auto)]

mod block;
mod checked;
mod draw;
mod evaluate;
mod lines;
mod list;
mod named;
mod print;
mod read;
mod refusal;
mod report;
mod status;
mod top;
mod words;

pub use print::{LEVELS, value_text};
pub use status::Status;
pub use top::script;
