ghost use Rattle.std.specs.Prelude.{◌≡◌};
ghost use Rattle.rip_real.specs.History.{new_state};
ghost use Rattle.rip_real.specs.Journal.{new_journal};

use crate::clock::HostClock;
use crate::door::TcpDoor;
use crate::random_words::{HostWords, RandomFailure};
use std::alloc::Global;
use std::io::Stderr;
use std::net::Net;
use std::random::RandomSource;

/// The real outside of a server: a TCP door, the clock and random words.
#[derive(Drop)]
pub struct RealOutside<'a, R> {
    pub door: TcpDoor<'a>,
    pub clock: HostClock<'a, R>,
    pub words: HostWords<'a, R>,
}

/// The real outside, its door on this address, or on none. With an address the system is asked for random keys at once.
/// Door and words share `random`, in which there is nothing yet.
pub fn real_outside<'a, R: Net + RandomSource>(
    rt: &'a R,
    alloc: Global,
    address: Option<&str>,
    random: &'a RandomFailure,
    stderr: Stderr,
) -> RealOutside<'a, R>
    ensures door { result.door ≡ new_journal }
    ensures clock { result.clock ≡ new_state }
    ensures words { result.words ≡ new_state }
{
    let (door, words) = match address {
        Some(address) => (
            TcpDoor::bind(rt, alloc, address, random, stderr),
            HostWords::with_keys(rt, random),
        ),
        None => (
            TcpDoor::nowhere(alloc, random, stderr),
            HostWords::new(rt, random),
        ),
    };
    RealOutside {
        door,
        clock: HostClock::new(rt),
        words,
    }
}
