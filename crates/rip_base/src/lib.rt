//! What everything stands on: whole numbers, texts of 16-bit units, and the lists that contracts see as lists.
//!
//! The lowest crate. It has the values of the script language with the conversions between numbers and texts
//! (ECMA-262 8, 9.3.1 and 9.8.1), texts in UTF-8 and UTF-16 (RFC 3629, RFC 2781), pages as lists of nodes, the reports of
//! a browser, and the limits of a session.
//!
//! | what | its definition in `specs/` |
//! |---|---|
//! | [`Whole`] | `Whole.IsWhole`; contracts see the whole number |
//! | [`List`], [`Bytes`], [`Units`], [`NumberList`] | contracts see the list |
//! | [`Units::from_utf8`], [`Units::to_utf8`] | `Text.IsSameText`, `Text.IsUtf16` |
//! | [`is_white_space`], [`is_line_end`] | `Blank.white_space`, `Blank.line_ends` |
//! | [`number_of_text`] | `Numbers.IsNumberOf`, of the text that `Blank.trimmed` leaves |
//! | [`whole_of`], [`digits_value`], [`digit_value`], [`split_sign`], [`trim_start`] | std's `digits_value` and `digit_value`, `Blank.trimmed_start` |
//! | [`is_hex_digit`], [`hex_value`], [`small_unit`], [`is_ascii`], [`is_ascii_in_small`] | `Units`, one definition each |
//! | [`text_of_whole`] | std's `signed_decimal` |
//! | [`Value`] of a number | `Values.value_of_number` |
//! | [`Limits`] | `Limits.AreInRange` |
//! | [`Report`], [`EventKind`], [`BadReport`] | contracts see their variants and fields |
//! | [`Writer`] | contracts see the bytes so far; numerals are std's `decimal` and `signed_decimal` |
//! | [`Page`] | contracts see `Page.Contents`: the nodes, and which hold the scripts |
//! | [`PageKind`] as it is printed | `Printed.kind_text` |
//!
//! A layer above may rest on this: what takes no allocator cannot fail for want of memory.
#![tactic(auto)]

mod blank;
mod limits;
mod list;
mod memory;
mod number;
mod operator;
mod page;
mod report;
mod text;
mod unit;
mod value;
mod whole;
mod writer;

pub use blank::{is_line_end, is_white_space, trim_start};
pub use limits::{LONGEST_INPUT, LONGEST_TEXT, Limits, MOST_REPLIES};
pub use list::{Bytes, List, NumberList, Units};
pub use memory::NoMemory;
pub use number::{
    PAST_RANGE, digit_value, digits_value, number_of_text, split_sign, text_of_whole, whole_of,
};
pub use operator::{BinaryOperator, LogicalOperator, StepOperator, UnaryOperator};
pub use page::{Attribute, NodeKind, Page, PageKind, PageNode, PairList};
pub use report::{BadReport, EventKind, Report};
pub use unit::{hex_value, is_ascii, is_ascii_in_small, is_hex_digit, small_unit};
pub use value::{Fault, Limit, Numeral, Refused, Span, TextError, Value};
pub use whole::{MAX_WHOLE, Whole};
pub use writer::Writer;
