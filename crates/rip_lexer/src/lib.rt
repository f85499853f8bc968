//! The tokens of a script: names, reserved words, numerals, texts and punctuators, as ECMA-262 section 7 has them.
//!
//! A script is a list of 16-bit units. [`tokens`] answers the one list of tokens that the whole script is, with gaps
//! of white space, line ends and comments around them, or the first construct that is refused, with its place. There
//! are no regular expressions and no fractions, names are of ASCII, and a numeral is at most 2^53 - 1. The layer above
//! may rest on the list being the only one, and reads at each token's place by [`numeral_value`] and [`text_value`]. Each
//! token has the word that it is to the grammar, by two tables of spellings; [`words_are_apart`] holds them against the
//! grammar's own words.
#![tactic(auto)]

mod ascii;
mod character;
mod construct;
mod gap;
mod lexer;
mod numeral;
mod punctuator;
mod refusal;
mod text;
mod token;
mod units;
mod words;

pub use lexer::{readings_are_one, tokens, words_are_apart};
pub use numeral::numeral_value;
pub use refusal::{LexKind, LexRefusal};
pub use text::text_value;
pub use token::{Token, TokenKind, Tokens};
