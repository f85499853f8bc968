use crate::connections::{Door, Knock, Sent};
use crate::moments::{Clock, Words};

/// The door at which nobody knocks: it is closed, and each connection is gone.
#[derive(Clone, Copy, Debug, PartialEq, Eq)]
pub struct NoDoor;

impl Door for NoDoor {
    ghost use Rattle.std.specs.Prelude.{◌≡◌, [], Some, None};

    ghost knocks = { λ _. record { told = None; left = None } };

    ghost asked = { λ _. Some [] };

    ghost sent = { λ _ _. Some [] };

    ghost shuts = { λ _. None };

    ghost is_open = { λ _ _. Unit {0} };

    ghost count = { λ _. 0 };

    fn faults(&self) -> u64 {
        0
    }

    fn next(&mut self, _room: &mut [u8; 4096], _busy: bool) -> Knock
        ensures { result ≡ Knock.Closed }
    {
        Knock::Closed
    }

    fn send(&mut self, _c: u64, _bytes: &[u8]) -> Sent
        ensures { result ≡ Sent.Gone }
    {
        Sent::Gone
    }

    fn shut(&mut self, _c: u64) {}
}

/// The clock that stands at 0.
#[derive(Clone, Copy, Debug, PartialEq, Eq)]
pub struct NoClock;

impl Clock for NoClock {
    ghost use Rattle.std.specs.Prelude.{Some, None};

    ghost told = { λ _. None };

    ghost coming = { λ _ _. Some 0 };

    ghost count = { λ _. 0 };

    fn faults(&self) -> u64 {
        0
    }

    fn now(&mut self) -> u64 {
        0
    }
}

/// The words that are all 0.
#[derive(Clone, Copy, Debug, PartialEq, Eq)]
pub struct NoWords;

impl Words for NoWords {
    ghost use Rattle.std.specs.Prelude.{Some, None};

    ghost told = { λ _. None };

    ghost coming = { λ _ _. Some 0 };

    ghost count = { λ _. 0 };

    fn faults(&self) -> u64 {
        0
    }

    fn word(&mut self) -> u64 {
        0
    }
}
