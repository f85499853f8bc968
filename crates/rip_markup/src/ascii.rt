//! Units of ASCII by name, for patterns.

pub(crate) const LINE_FEED: u16 = 10;

pub(crate) const CARRIAGE_RETURN: u16 = 13;

pub(crate) const HASH: u16 = 0x23;

pub(crate) const AMPERSAND: u16 = 0x26;

pub(crate) const SLASH: u16 = 0x2F;

pub(crate) const SEMICOLON: u16 = 0x3B;

pub(crate) const LESS: u16 = 0x3C;

pub(crate) const EQUALS: u16 = 0x3D;

pub(crate) const GREATER: u16 = 0x3E;

pub(crate) const SMALL_X: u16 = 0x78;
