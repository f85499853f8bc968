//! The reader of pages: bytes as text, and the text as tokens.
//!
//! A page is HTML, narrowed to a subset that has one reading and needs no mending. This crate reads its bytes as text
//! (HTML 13.2.3) and the text as tokens (HTML 13.2.5): doctypes, comments, start tags with their attributes, end tags
//! and texts, with names in small letters, references replaced and lines ended by LF. What a token stands for is whole:
//! where one is refused for itself it is the last, and says where and why. How tokens nest, and which may stand where,
//! is not judged here.
//!
//! | what | its definition in `specs/` |
//! |---|---|
//! | [`read_text`] | `Input.IsTextOf`, `Input.IsTextRefusal` |
//! | [`byte_place`] | `Input.bytes_before` |
//! | [`tokens`] | `Tokens.IsTokens` |
//! | how many units tokens have at least | `Counts.HaveUnits` |
//! | a start tag | `Tags.IsStartTag`, its attributes `Attributes.LeadsAttributes`, its fault `Tags.tag_fault` |
//! | a text with references | `References.IsRead`, by `Texts.StandsForItems` |
//!
//! A layer above may rest on this: a page's text has one list of tokens, and [`tokens`] answers that list, unless memory
//! runs out; all calls take time in proportion to the page, but for a logarithm of the attributes of a tag.
#![tactic(auto)]

mod ascii;
mod attribute;
mod fault;
mod form;
mod input;
mod names;
mod reading;
mod reference;
mod refusal;
mod tag;
mod text;
mod token;
mod tokenizer;
mod units;
mod words;

pub use fault::Fault;
pub use input::{PageText, byte_place, read_text};
pub use refusal::PageRefusal;
pub use tag::StartTag;
pub use text::texts_are_items;
pub use token::{EndTag, Placed, TextRun, Token};
pub use tokenizer::{
    texts_have_tokens, tokens, tokens_are_one, tokens_are_within, tokens_have_units,
};
pub use words::{is_refused, is_void};
