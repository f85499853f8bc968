//! The history of an object of the outside: each call of the system and what it answered. Only proofs read it; it takes
//! no memory, and does nothing at run time.
ghost use Rattle.std.specs.Prelude.{◌≡◌, ◌++◌, ◌∷◌, [], List};
ghost use Rattle.std.specs.Borrow.{ftrue};
ghost use Rattle.rip_real.specs.History.{Deed as Noted, deeds_code};

use rip_outer::{Knock, Sent};
use std::marker::Model;

/// What was done so far, in order. A clause reads it as `deeds`.
#[derive(Drop)]
pub struct History {
    pub ghost deeds: { List Noted } by { deeds_code },
}

impl Model for History {
    ghost also_owns = { λ _. ftrue };
}

/// One call of the outside, and what it answered.
#[derive(Clone, Copy, Drop)]
pub enum Deed<'a> {
    /// A door was asked for a knock, with what was passed as `busy`.
    Next(Knock, &'a [u8; 4096], bool),
    /// Bytes were to be sent to a connection.
    Send(Sent, u64, &'a [u8]),
    /// A connection was shut.
    Shut(u64),
    /// A file was asked for by its name.
    Read(&'a str),
    /// Bytes were written.
    Put(&'a [u8]),
    /// A moment or a word was given.
    Give(u64),
}

impl History {
    ghost use Rattle.rip_real.specs.Deeds.{noted};

    /// Nothing was done yet.
    pub fn new() -> History
        ensures { result.deeds ≡ [] }
    {
        History {}
    }

    /// The same, and then this.
    #[inline(always)]
    pub fn then(&self, _deed: &Deed<'_>) -> History
        ensures { result.deeds ≡ self.now.deeds ++ noted _deed.now ∷ [] }
    {
        History {}
    }
}
