//! The grammar of scripts (ECMA-262 11 to 14, and 7.9 on semicolons), in definitions: what a reader must believe of the
//! language, and nothing beside it.
//!
//! The grammar speaks of [`Lexeme`]s: tokens with the [`Word`] that each is to it, and not of texts. A derivation is a
//! phrase whose leaves are lexemes. What is told of a phrase is a list of [`Event`]s, its parts before it.
//! `rip_automaton` has a machine that takes the scripts and nothing else, one lexeme at a time, and `rip_parser` that
//! machine as code. What the layers above may rest on is that these definitions are the language. Its tables are held
//! against the standard by laws: the levels of operators ([`operators_bind_by_productions`]), the words that continue an
//! expression ([`other_words_offend`]), and where `;` is inserted ([`semicolons_stand_before_offending`]).
//!
//! | what | its definition in `specs/` |
//! |---|---|
//! | what the rules ask of a word | `Words` |
//! | the forms of phrases, and the lexemes of a phrase | `Phrases.Phrase`, `Phrases.spell` |
//! | precedence, by levels that have the standard's names | `Levels.level`, `Levels.binds` |
//! | where the empty spelling stands for `;` | `Semicolons.IsEnded` |
//! | which phrases the rules make | `Grammar.IsMade`, a line for each symbol; `Grammar.IsScript` |
//! | the depth of a tree | `Depths.depth` |
//! | the productions of the standard that the levels are held against | `Productions.production` |
//! | which tokens offend behind an expression | `Offending` |
//! | what is told of a phrase, its parts before it ([`Event`], [`Head`]) | `Events.emit` |
#![tactic(auto)]

mod event;
mod laws;
mod word;

pub use event::{Event, Head};
pub use laws::{
    operators_bind_by_productions, other_words_offend, semicolons_stand_before_offending,
};
pub use word::{Lexeme, Word};
