//! The built-in functions of the script language (ECMA-262 5.1, section 15), over the heap of a session.
//!
//! [`builtin`] answers a call of one of them on a value with some arguments. Contracts see an outcome over worlds: a
//! value with the world after it, a TypeError to be thrown, a fault of the profile, or a limit that would be passed.
//! Each answer comes exactly where the outcome is that one (`Outcome.Answers` of the heap's crate); where it is no
//! value the heap is as before, what was charged on the way included. No call takes memory, so that none wants it.
//!
//! Arguments that are absent are undefined. They are converted in the order of the standard, and the receiver of a
//! function of arrays or texts is judged before them. Numbers are whole numbers of at most 2^53 - 1, or NaN. Texts are
//! read as they stand before the call.
//!
//! | what | its definition in `specs/` |
//! |---|---|
//! | [`builtin`] | `Builtins.builtin`, by the home: `Builtins.array_function`, `Builtins.text_function`, `Builtins.plain_function`, one equation for each built-in |
//! | the receivers of functions of arrays and texts | `Receivers.on` |
//! | `Math.abs` `Math.floor` `Math.min` `Math.max`, `isNaN`, `Number` | `Numbers` |
//! | `String` | `Globals` |
//! | `parseInt` | `ParseInt.parse_int`; `ParseInt.integer_at_start` of a text |
//! | `Error` `TypeError` `RangeError` | `Errors.error_call` |
//! | `push` `pop` `slice` `indexOf` of arrays | `Arrays` |
//! | `join` | `Joining.join`; `Joining.joined_by` of texts; how these are found is private, by `Pieces` |
//! | `charAt` `charCodeAt` `substring` | `Texts` |
//! | `indexOf` of texts | `Search.text_index_of`, by `Search.first_place` of the heap's crate; `Laws.FindsFirstPlaces`, the law of [`texts_are_found_first`] |
//! | `hasOwnProperty` | `OwnProperties.has_own_property` |
//!
//! A built-in is declared by a line of `tables/names.txt`, from which `tools/names.py` makes its names and numbers. What has no
//! equation is outside the profile here: the objects `Math` and `ripley`, `call` of script
//! functions, and the functions of `ripley`, the document, nodes and events, which layers above answer.
//!
//! A layer above may rest on this: each call is total, a number that is no object of the heap included, and an
//! answer other than a value changes nothing.
#![tactic(auto)]

mod arguments;
mod arrays;
mod builtins;
mod errors;
mod globals;
mod joining;
mod laws;
mod numbers;
mod numerals;
mod outcome;
mod own_properties;
mod parse_int;
mod pieces;
mod receivers;
mod text_search;
mod texts;

pub use builtins::builtin;
pub use laws::texts_are_found_first;
