ghost use Rattle.std.specs.Prelude.{◌≡◌, ◌<◌, IfSome, length};
ghost use Rattle.rip_events.specs.Flow.{is_capturing, called_at, called_here, call_at, next_call};
ghost use Rattle.rip_events.specs.Reached.{last_of, IsArrival};

use crate::cursor::Cursor;
use crate::listener::Wanted;
use crate::listeners::Listeners;
use crate::station::{Phase, Place, Station};
use rip_base::Span;
use rip_heap::Heap;
use rip_values::Pool;

impl Cursor {
    /// The next call of the flow, or none where no place is left. A station that is reached now takes the listeners
    /// that are registered now, and each is called if it still stands at its turn. A flow that was stopped goes to no
    /// further station.
    pub fn next(&mut self, heap: &Heap, all: &Listeners, stopped: bool) -> Option<Place>
        ensures { (result, self.new) ≡ next_call heap.now.pool all.now stopped self.old }
    {
        let count = all.count();
        match self.next_here(heap.pool(), all) {
            Some((station, n)) => {
                self.next = n + 1;
                return Some(call_at(all, station, n));
            }
            None => {}
        }
        if !stopped {
            match arrival(&self.stations, self.reached, heap.pool(), self.kind, all) {
                Some((i, station, n)) => {
                    self.reached = i + 1;
                    self.next = n + 1;
                    self.mark = count;
                    return Some(call_at(all, station, n));
                }
                None => {}
            }
        }
        self.stations.clear();
        self.reached = 0;
        self.next = 0;
        self.mark = 0;
        None
    }

    fn next_here(&self, pool: &Pool, all: &Listeners) -> Option<(Station, u32)>
        ensures next { result ≡ called_here pool.now self.now.kind all.now self.now.next
            self.now.mark
            self.now.here }
        ensures within { IfSome result (λ r. r.1 < length all.now.registered) }
    {
        let station = last_of(&self.stations, self.reached)?;
        let n = called_at(pool, self.kind, all, self.next, self.mark, station)?;
        Some((station, n))
    }
}

// The last of the stations that were reached.
fn last_of(stations: &Vec<Station>, reached: usize) -> Option<Station>
    ensures { result ≡ last_of stations.now.items reached }
{
    if reached == 0 {
        return None;
    }
    stations.get(reached - 1).copied()
}

// The first station from this place on at which a listener is called, its place, and the listener.
fn arrival(
    stations: &Vec<Station>,
    from: usize,
    pool: &Pool,
    kind: Span,
    all: &Listeners,
) -> Option<(usize, Station, u32)>
    ensures next { IsArrival pool.now kind all.now stations.now.items from result }
    ensures within { IfSome result (λ r. r.2 < length all.now.registered) }
{
    let count = all.count();
    for i in from..stations.len() {
        let station = stations[i];
        match called_at(pool, kind, all, 0, count, station) {
            Some(n) => return Some((i, station, n)),
            None => {}
        }
    }
    None
}

fn call_at(all: &Listeners, station: Station, n: u32) -> Place
    ensures { result ≡ call_at all.now station n }
{
    Place {
        node: station.node,
        phase: station.phase,
        function: all.function(n),
        listener: n,
    }
}

// The first listener that is called at the station, of those from the one number up to the other.
fn called_at(
    pool: &Pool,
    kind: Span,
    all: &Listeners,
    from: u32,
    until: u32,
    station: Station,
) -> Option<u32>
    ensures called { result ≡ called_at pool.now kind all.now from until station }
    ensures within { IfSome result (λ n. n < length all.now.registered) }
{
    let wanted = Wanted {
        node: station.node,
        kind,
        function: None,
        capture: is_capturing(station.phase),
    };
    all.first_between(pool, wanted, from, until)
}

fn is_capturing(phase: Phase) -> bool
    ensures { result ≡ is_capturing phase }
{
    match phase {
        Phase::Capturing => true,
        Phase::AtTarget => false,
        Phase::Bubbling => false,
    }
}
