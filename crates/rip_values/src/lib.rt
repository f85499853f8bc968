//! Names: the fixed texts, the built-in functions and objects, the globals, and the pool in which the texts of a session
//! stand. Only the heap and what stands on it see them, and what resolves names.
//!
//! What [`rip_base`] has is to be had here too.
//!
//! | what | its definition in `specs/` |
//! |---|---|
//! | [`FixedText`] | `FixedTable.text_of`, its table, and `FixedTexts.fixed_span`, its places |
//! | [`Builtin`] | `Builtins.number_of`, `Builtins.name_of`, `Builtins.home_of` |
//! | [`Global`] | `GlobalTable.global_name`, `Globals.global_named`, `GlobalTable.global_value` |
//! | [`Pool`] | contracts see `Pool.Texts`; a span stands for `Pool.text_at` |
//!
//! A layer above may rest on this: a span stands for the same text for ever (`Pool.KeepsTexts`), and charged texts take no
//! memory.
#![tactic(auto)]

mod builtin;
mod builtin_lookup;
mod fixed;
mod fixed_lookup;
mod global;
mod global_lookup;
mod pool;

pub use builtin::{BUILTINS, Builtin, BuiltinHome};
pub use builtin_lookup::{FIRST_HEAP_OBJECT, FIRST_NODE};
pub use fixed::{FIXED_TEXTS, FixedText};
pub use global::{GLOBALS, Global};
pub use pool::Pool;
pub use rip_base::{
    Attribute, BadReport, BinaryOperator, Bytes, EventKind, Fault, LONGEST_INPUT, LONGEST_TEXT,
    Limit, Limits, List, LogicalOperator, MAX_WHOLE, MOST_REPLIES, NoMemory, NodeKind, NumberList,
    Numeral, PAST_RANGE, Page, PageKind, PageNode, PairList, Refused, Report, Span, StepOperator,
    TextError, UnaryOperator, Units, Value, Whole, Writer, digit_value, digits_value, hex_value,
    is_ascii, is_ascii_in_small, is_hex_digit, is_line_end, is_white_space, number_of_text,
    small_unit, split_sign, text_of_whole, trim_start, whole_of,
};
