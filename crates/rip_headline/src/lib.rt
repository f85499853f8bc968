//! What Ripley promises, over the contract of the top call.
//!
//! | module | what |
//! |---|---|
//! | [`headline`] | the theorems over a run of the program: served calls match, honest clients are served, sessions are isolated, requests are answered in order |
//! | [`prefixes`] | each session's served calls are a longest matching prefix |
//! | [`limits`] | no session passes a limit |
//! | [`pages`] | the page of a session passes no limit, also once the session has ended |
//! | [`isolation`] | a session that is given the same in two runs does the same |
//! | [`completeness`] | an honest client is served to the end |
//! | [`due`] | the replies that an honest client reports are due |
//! | [`driven`] | what `drive` writes is served |
//! | [`ends`] | with turns enough every batch comes to its end |
//! | [`replays`] | a replay of accepted files, with turns enough, comes to its end |
//! | [`broken`] | a run that breaks off wrote a prefix of a legal history |
#![tactic(auto)]

pub mod broken;
pub mod completeness;
pub mod driven;
pub mod due;
pub mod ends;
pub mod headline;
pub mod isolation;
pub mod limits;
pub mod pages;
pub mod prefixes;
pub mod replays;
