/// The most bytes of a key in UTF-8.
pub const LONGEST_KEY: usize = 64;

/// The most places that a store holds.
pub const MOST_KEYS: usize = 4_096;
