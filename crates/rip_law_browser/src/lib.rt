//! Theorems of runs over a browser.
//!
//! | module | what |
//! |---|---|
//! | [`counting`] | runs count their units |
//! | [`keeping`] | what every answer of a browser, and every run over it, leaves as it was |
//! | [`unread`] | that no answer and no run reads the replies that wait to be delivered |
#![tactic(auto)]

pub mod counting;
pub mod keeping;
pub mod unread;
