//! Runs of rows, and the machine that runs them: what a run is, what is left of one that stands, and how it goes on.
//!
//! The meaning of a program is a table of *rows*: what each part of a run does, as a small program that asks for its
//! parts (ECMA-262 5.1, sections 10 to 14, in big steps over worlds). A row ends with a completion, stops the run, asks
//! for a part, begins one more turn of a loop, or asks the host. It never sees units: one interpreter runs every row,
//! takes a unit and one of the depth where a part is entered, gives the depth back where the part has completed, and
//! lets a stop and a cut leave through every open part. A run that stands is the part or the completion that it goes on
//! with, and the open *frames*, each of which is an open part and what it waits for. What is left of such a run is the
//! rest of the row of each frame, from the innermost outwards. A [`Run`] is such a run in memory. The rows are handed to
//! it as code, by the trait [`Rows`], whose ghost member is the table: the layer above writes rows, and none of it sees
//! units, fuel, depth or the stack. All laws speak of any table: no lemma here names a kind of node or of frame.
//!
//! | what | its definition in `specs/` |
//! |---|---|
//! | a row, and the table of a program | `Row.Row`, `Row.Table`; the depth is tested by `Row.entered` |
//! | the run of a row with so much depth and so many units | `Run.run`, by `Run.run_by`; of a part `Run.ev` |
//! | a part inside an open one, and the depth left inside it | `Frame.inside`, `Rest.room_in` |
//! | what an open part does next ([`Next`]) as a row | `Rest.as_row`; the run of that `Rest.next_run` |
//! | what a list of statements or a loop does behind one of its parts ([`Round`]) | `Round.round_next`, `Round.rest_at` |
//! | a row once the host has answered all that it asks before any part | `Settle.settle` |
//! | a part that is done at once, without a cut and without the host | `Done.Done`, by `Done.Comes` of its row |
//! | what is left of a run that stands | `Rest.rest`, by `Rest.finish` and `Rest.unwind` |
//! | a run cut after any unit, and its fuel | `Cut.run_of`, `Cut.rest_of` |
//! | [`Run`] | contracts see `Law.Standing`; what each keeps is `Keeping.IsRun`, with `Nesting.IsInside` |
//! | how many values may yet stand beside its frames | `Room.most_values`, which never rises |
//! | the values beside a frame and the one that it was given, side by side | `Room.AreTogether` |
//! | [`Run::begin`], [`Run::resume`], [`Run::depth`] | `Law.Begins`, `Law.Resumes`, `Law.open_depth` |
//! | what an item or a batch does, as a program that asks for runs | `Plan.Plan`, joined by `Plan.and_then` |
//! | what a [`Planner`] answers, a [`Step`] of a plan | `Plan.ahead`: the plan is that step, and then what is left |
//! | a plan that takes no unit but for fuel, waits for nothing, and ends with no mismatch | `Plan.IsPlain` |
//! | what plans see of an [`Evaluator`] | `Evaluation.Evaluation`: where its runs stand; `Evaluation.Begins`, `Evaluation.Advances` |
//! | [`Stack`] | contracts see `Stack.Frames`: the open frames, the outermost first, each with the values beside it |
//!
//! | law, for every host and every table | where |
//! |---|---|
//! | units never grow; a greater bound of nested rows changes nothing | `proofs/Runs.antt`: `to-at_most`, `to-same` |
//! | the run of a row that asks for a part, or begins a turn | `run-asks`, `run-again` |
//! | the innermost frame is finished first; a stop and a cut leave through all | `proofs/Laws.antt`: `unwind-push`, `unwind-stops`, `unwind-cuts` |
//! | what is left after a step is what was left | `rest-next`, `rest-enters`, `rest-gives` |
//! | a part that is done at once completes with these units, whatever is left | `proofs/Doing.antt`: `ev-done`, `rest-done` |
//! | where a row waits for such a part, what it does with its completion runs on as the row did | `part-asked`, `part-turned` |
//! | more units change no run that has come to its end | `proofs/Later.antt`: `of-later` |
//! | a row whose calls of the host were made runs on as the row did | `proofs/Settles.antt`: `run-settles`, `settled` |
//! | open parts are nested within the depth | `proofs/Nested.antt`: `next_inside` |
//! | each value that is kept took a unit | `proofs/Roomed.antt`: `next_values` |
//! | what the steps of a call leave is what `resume` promises; a run that begins is the whole run of its row | `proofs/Resumes.antt`: `resumes`, `begins_whole` |
//!
//! Frames own no memory. The room of a stack is taken by [`Run::make`] and [`Run::reserve`]; a run for whose fuel there is
//! room wants no memory but where its host may (`Room.WantsMemory`), and any other takes more as its values come.
#![tactic(auto)]

mod close;
mod completion;
mod evaluator;
mod frame;
mod next;
mod outcome;
mod part;
mod planner;
mod round;
mod rows;
mod run;
mod stack;
mod step;
mod steps;

pub use close::Close;
pub use completion::{Completed, Completion, Stop};
pub use evaluator::{Advance, Evaluator};
pub use frame::{Ending, Frame, HostedWait, OwnWait, Wait};
pub use next::{Control, Next};
pub use outcome::{Outcome, Turned};
pub use part::{Inner, Part, Role};
pub use planner::Planner;
pub use round::{Round, RoundWait};
pub use rows::Rows;
pub use run::Run;
pub use stack::Stack;
pub use step::{Opening, Phase, Step};
