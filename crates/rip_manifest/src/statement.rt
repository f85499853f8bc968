use rip_limits::{Language, Version, Wire};

/// What a manifest states of itself: its version, and in which language and wire its page is judged.
#[derive(Clone, Copy, Debug, PartialEq, Eq)]
pub struct Stated {
    pub version: Version,
    pub language: Language,
    pub wire: Wire,
}
