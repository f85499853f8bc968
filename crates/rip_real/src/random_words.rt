use crate::history::{Deed, History};
use rip_outer::Words;
use std::cell::Cell;
use std::hash::{BuildHasher, Hasher, RandomState};
use std::io;
use std::marker::Model;
use std::random::RandomSource;

/// The words that an opening of a session takes.
const WORDS_OF_SESSION: u64 = 3;

/// The sessions that a run may open.
const SESSIONS: u64 = 1_000_000;

/// After so many sessions it is said how many are left: nine tenths, ninety-nine hundredths, and all.
const SAID_AT: [u64; 3] = [900_000, 990_000, SESSIONS];

/// Why the system gave no keys, where it did not. Words leave it here, and the door that shares it sends nothing more.
pub type RandomFailure = Cell<Option<io::Error>>;

/// Random words of the machine: each is the hash of its number under keys that the system gives for it. It tells the
/// words that it gave. Where no keys can be had, those before are used once more, and why is left in `failure`. To people
/// it says when most of the sessions are opened that a run may open.
#[derive(Drop)]
pub struct HostWords<'a, R> {
    rt: &'a R,
    failure: &'a RandomFailure,
    keys: Option<RandomState>,
    history: History,
    given: u64,
    faults: u64,
}

impl<'a, R> Model for HostWords<'a, R> {
    ghost use Rattle.rip_real.specs.History.{HostState};

    ghost Value = { HostState };

    ghost view = { λ s. record { deeds = s.history.deeds; faults = s.faults } };
}

impl<'a, R> HostWords<'a, R> {
    ghost use Rattle.std.specs.Prelude.{◌≡◌};
    ghost use Rattle.rip_real.specs.History.{new_state};

    /// Words of which none was given yet.
    pub fn new(rt: &'a R, failure: &'a RandomFailure) -> HostWords<'a, R>
        ensures { result ≡ new_state }
    {
        HostWords {
            rt,
            failure,
            keys: None,
            history: History::new(),
            given: 0,
            faults: 0,
        }
    }
}

/// The hash of a number, where there are keys.
fn hash_of(keys: &Option<RandomState>, number: u64) -> u64 {
    let Some(keys) = keys else {
        return 0;
    };
    let mut hasher = keys.build_hasher();
    hasher.write_u64(number);
    hasher.finish()
}

impl<'a, R: RandomSource> HostWords<'a, R> {
    ghost use Rattle.std.specs.Prelude.{◌≡◌};
    ghost use Rattle.rip_real.specs.History.{new_state};

    /// Words of which none was given yet, and for which the system was asked for keys: a server is to begin with keys, or
    /// not at all.
    pub fn with_keys(rt: &'a R, failure: &'a RandomFailure) -> HostWords<'a, R>
        ensures { result ≡ new_state }
    {
        HostWords {
            rt,
            failure,
            keys: keys_of(rt, failure),
            history: History::new(),
            given: 0,
            faults: 0,
        }
    }
}

/// Keys of the system, or why there are none.
fn keys_of<R: RandomSource>(rt: &R, failure: &RandomFailure) -> Option<RandomState> {
    match RandomState::new(rt) {
        Ok(keys) => Some(keys),
        Err(error) => {
            failure.set(Some(error));
            None
        }
    }
}

/// Says how many sessions are left, where it is time to. A session whose opening failed for its identifier or for memory
/// counts as opened.
fn say_left<R: Eprint>(rt: &R, given: u64) {
    for opened in SAID_AT {
        if given == opened * WORDS_OF_SESSION {
            let _said = match SESSIONS - opened {
                0 => {
                    eprintln!(rt;
                        "all {SESSIONS} sessions of this run are opened: start the program anew to open more"
                    )
                }
                left => {
                    eprintln!(rt;
                        "{left} of the {SESSIONS} sessions of this run are left: start the program anew before they are spent"
                    )
                }
            };
        }
    }
}

impl<'a, R: RandomSource + Eprint> Words for HostWords<'a, R> {
    ghost use Rattle.std.specs.Prelude.{None};
    ghost use Rattle.rip_real.specs.History.{given_in};

    ghost told = { λ w. given_in w.deeds };

    ghost coming = { λ _ _. None };

    ghost count = { λ w. w.faults };

    fn faults(&self) -> u64 {
        self.faults
    }

    fn word(&mut self) -> u64 {
        match keys_of(self.rt, self.failure) {
            Some(keys) => self.keys = Some(keys),
            None => self.faults = self.faults.saturating_add(1),
        }
        self.given = self.given.wrapping_add(1);
        say_left(self.rt, self.given);
        let word = hash_of(&self.keys, self.given);
        self.history = self.history.then(&Deed::Give(word));
        word
    }
}
