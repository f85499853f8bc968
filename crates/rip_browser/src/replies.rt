ghost use Rattle.std.specs.Prelude.{◌≡◌};
ghost use Rattle.rip_heap.specs.Growth.{Grows};
ghost use Rattle.rip_host.specs.Visit.{Fits};
ghost use Rattle.rip_replica.specs.Rules.{Delivers};
ghost use Rattle.rip_browser.specs.Calls.{at_hand, position_in};
ghost use Rattle.rip_browser.specs.Replies.{delivered, stop_of, without_reply};

use rip_calls::{Match, Queue};
use rip_convert::value_of_datum;
use rip_eval_rows::Stop;
use rip_heap::{Halt, Heap};
use rip_host::{Browser, Undelivered};
use rip_replica::items::{Callback, Position, ReplyRefused};

/// How a reported call stands to the calls that the script made, where these replies are undelivered.
pub(crate) fn position_in(
    calls: &Queue,
    undelivered: &Undelivered,
    number: u64,
    text: &[u8],
) -> Position
    ensures { result ≡ position_in calls.now undelivered.now number text.now }
{
    if !calls.is_next(number) {
        return Position::NotNext;
    }
    match calls.compare(text) {
        Match::Same => at_hand(calls, undelivered),
        Match::Other | Match::None => Position::Other,
    }
}

/// A call that is the one at hand is served, but where it has a callback and no reply more may be undelivered.
fn at_hand(calls: &Queue, undelivered: &Undelivered) -> Position
    ensures { result ≡ at_hand calls.now undelivered.now }
{
    if calls.front_callback().is_some() && undelivered.is_full() {
        Position::TooMany
    } else {
        Position::Served
    }
}

/// Makes the value of a reply that is due, and tells its callback. The reply is taken, and its moment is that of the
/// browser from then on.
pub(crate) fn deliver(
    browser: &mut Browser,
    heap: &mut Heap,
    batch: u64,
    number: u64,
) -> Result<Callback, ReplyRefused>
    requires { Fits browser.old heap.old }
    ensures fits { Fits browser.new heap.new }
    ensures grows { Grows heap.old heap.new }
    ensures delivers { Delivers (delivered browser.old heap.old batch number) heap.old browser.old
        result heap.new browser.new }
{
    let alloc = browser.alloc;
    let (function, made) = match browser.undelivered.due(number, batch) {
        None => return Err(ReplyRefused::NotDue),
        Some(waiting) => (
            waiting.callback,
            value_of_datum(alloc, heap, waiting.reply.datum()),
        ),
    };
    match made {
        Ok(reply) => {
            take_out(browser, heap, batch, number);
            Ok(Callback { function, reply })
        }
        Err(halt) => {
            take_out(browser, heap, batch, number);
            Err(ReplyRefused::Stopped(stop_of(halt)))
        }
    }
}

/// How an item stops where the making of a value halts.
fn stop_of(halt: Halt) -> Stop
    ensures { result ≡ stop_of halt }
{
    match halt {
        Halt::Fault(fault) => Stop::Fault(fault),
        Halt::Limit(limit) => Stop::Limit(limit),
    }
}

/// Takes the reply that is due out of those that are undelivered.
fn take_out(browser: &mut Browser, heap: &Heap, batch: u64, number: u64)
    requires { Fits browser.old heap.now }
    ensures taken { browser.new ≡ without_reply number batch browser.old }
    ensures fits { Fits browser.new heap.now }
{
    let _ = heap;
    if let Some(taken) = browser.undelivered.take_due(number, batch) {
        browser.moment = taken.time;
    }
}
