use crate::listed::copy_of_numbers;
use crate::moments::{Clock, Words};
use rip_base::{NoMemory, NumberList};
use std::alloc::Global;
use std::marker::Model;

/// A clock in memory. It gives the moments of a list in turn, and then the last of them for ever, or 0 where the list is
/// empty. What it will give is told; what it gave is not, since no count of its calls could be exact for ever.
#[derive(Debug, Drop)]
pub struct MemoryClock {
    moments: NumberList,
    place: usize,
}

impl Model for MemoryClock {
    ghost use Rattle.std.specs.Prelude.{◌<◌, ◌≤◌, ◌-◌, ◌^◌, All, length};
    ghost use Rattle.rip_outer.specs.Moments.{ClockState, IsClock};

    ghost Value = { ClockState };

    ghost view = { λ c. record { moments = c.moments; place = c.place } };

    ghost invariant = { λ c. IsClock c.moments c.place };
}

impl MemoryClock {
    ghost use Rattle.std.specs.Prelude.{◌≡◌, ◌<◌, ◌^◌, All, IfOk};
    ghost use Rattle.rip_outer.specs.Moments.{new_clock};

    /// The clock of these moments, each below 2^53.
    pub fn make(alloc: Global, moments: &NumberList) -> Result<MemoryClock, NoMemory>
        requires { All (λ moment. moment < 2 ^ 53) moments.now }
        ensures { IfOk result (λ clock. clock ≡ new_clock moments.now) }
    {
        Ok(MemoryClock {
            moments: copy_of_numbers(alloc, moments)?,
            place: 0,
        })
    }
}

impl Clock for MemoryClock {
    ghost use Rattle.std.specs.Prelude.{Some, None};
    ghost use Rattle.rip_outer.specs.Moments.{moment_at};

    ghost told = { λ _. None };

    ghost coming = { λ c j. Some (moment_at c j) };

    ghost count = { λ _. 0 };

    fn faults(&self) -> u64 {
        0
    }

    fn now(&mut self) -> u64 {
        let Some(moment) = self.moments.as_slice().get(self.place).copied() else {
            return 0;
        };
        if self.place + 1 < self.moments.len() {
            self.place += 1;
        }
        moment
    }
}

/// Random words in memory. They are those of a list in turn, and then word j is j, counted from 1. What will be given
/// is told; what was given is not, since no count of the calls could be exact for ever.
#[derive(Debug, Drop)]
pub struct MemoryWords {
    words: NumberList,
    place: usize,
    given: u64,
}

impl Model for MemoryWords {
    ghost use Rattle.std.specs.Prelude.{◌≤◌, length};
    ghost use Rattle.rip_outer.specs.Moments.{WordsState};

    ghost Value = { WordsState };

    ghost view = { λ w. record { words = w.words; place = w.place; given = w.given } };

    ghost invariant = { λ w. w.place ≤ length w.words };
}

impl MemoryWords {
    ghost use Rattle.std.specs.Prelude.{◌≡◌, IfOk};
    ghost use Rattle.rip_outer.specs.Moments.{new_words};

    /// These words, and then the numbers of the words.
    pub fn make(alloc: Global, words: &NumberList) -> Result<MemoryWords, NoMemory>
        ensures { IfOk result (λ made. made ≡ new_words words.now) }
    {
        Ok(MemoryWords {
            words: copy_of_numbers(alloc, words)?,
            place: 0,
            given: 0,
        })
    }
}

impl Words for MemoryWords {
    ghost use Rattle.std.specs.Prelude.{Some, None};
    ghost use Rattle.rip_outer.specs.Moments.{word_at};

    ghost told = { λ _. None };

    ghost coming = { λ w j. Some (word_at w j) };

    ghost count = { λ _. 0 };

    fn faults(&self) -> u64 {
        0
    }

    fn word(&mut self) -> u64 {
        self.given = self.given.wrapping_add(1);
        match self.words.as_slice().get(self.place).copied() {
            Some(word) => {
                self.place += 1;
                word
            }
            None => self.given,
        }
    }
}
