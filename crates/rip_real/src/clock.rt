ghost use Rattle.std.specs.Prelude.{◌<◌, ◌^◌, IfSome};

use crate::history::{Deed, History};
use rip_outer::Clock;
use std::marker::Model;
use std::rt;
use std::time::{SystemTime, UNIX_EPOCH};

/// The greatest moment: the last whole number below 2^53.
const MAX_MOMENT: u64 = 9_007_199_254_740_991;

/// The clock of the machine, in milliseconds since the beginning of 1970. It tells the moments that it gave. Where it
/// can't be read it gives the moment before.
#[derive(Drop)]
pub struct HostClock<'a, R> {
    rt: &'a R,
    history: History,
    last: u64,
    faults: u64,
}

impl<'a, R> Model for HostClock<'a, R> {
    ghost use Rattle.std.specs.Prelude.{◌<◌, ◌^◌};
    ghost use Rattle.rip_real.specs.History.{HostState};

    ghost Value = { HostState };

    ghost view = { λ s. record { deeds = s.history.deeds; faults = s.faults } };

    ghost invariant = { λ s. s.last < 2 ^ 53 };
}

impl<'a, R> HostClock<'a, R> {
    ghost use Rattle.std.specs.Prelude.{◌≡◌};
    ghost use Rattle.rip_real.specs.History.{new_state};

    /// A clock that was not asked yet.
    pub fn new(rt: &'a R) -> HostClock<'a, R>
        ensures { result ≡ new_state }
    {
        HostClock {
            rt,
            history: History::new(),
            last: 0,
            faults: 0,
        }
    }
}

/// The moment now, where the clock can be read.
fn moment<R: rt::Clock>(rt: &R) -> Option<u64>
    ensures { IfSome result (λ moment. moment < 2 ^ 53) }
{
    let now = SystemTime::now(rt).ok()?;
    let since = now.duration_since(UNIX_EPOCH).ok()?;
    let millis = u64::try_from(since.as_millis()).unwrap_or(MAX_MOMENT);
    Some(millis.min(MAX_MOMENT))
}

impl<'a, R: rt::Clock> Clock for HostClock<'a, R> {
    ghost use Rattle.std.specs.Prelude.{None};
    ghost use Rattle.rip_real.specs.History.{given_in};

    ghost told = { λ c. given_in c.deeds };

    ghost coming = { λ _ _. None };

    ghost count = { λ c. c.faults };

    fn faults(&self) -> u64 {
        self.faults
    }

    fn now(&mut self) -> u64 {
        match moment(self.rt) {
            Some(moment) => self.last = moment,
            None => self.faults = self.faults.saturating_add(1),
        }
        self.history = self.history.then(&Deed::Give(self.last));
        self.last
    }
}
