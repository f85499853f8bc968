ghost use Rattle.std.specs.Prelude.{◌≡◌, ◌++◌, ◌∷◌, All, IfErr, IfOk, List as Items, None, OnOk};
ghost use Rattle.rip_client.specs.Bytes.{batches_of};
ghost use Rattle.rip_client.specs.Sizes.{IsGesture};
ghost use Rattle.rip_trace.specs.declared.gestures.LinedGesture.{LinedGesture as Lined};
ghost use Rattle.rip_drive.specs.Drivers.{EndsSo, IsDriven, IsOpenedAndDriven, IsOpenedAndRefused, IsRefused, RefusesFrom, RefusesSo, TellsSo};
ghost use Rattle.rip_drive.specs.Driving.{batch_lines, stop_reason};

use rip_base::{Bytes, NoMemory, Writer};
use rip_client::{Actor, Client, HowTold, ToldBatch};
use rip_eval_rows::{Close, Stop};
use rip_store::Store;
use rip_trace::LinedGesture;
use rip_trace::lines::{write_batch_line, write_ended, write_opening};
use rip_wire::Reason;
use std::alloc::Global;
use thiserror::Error;

/// Why gestures are not driven.
#[derive(Clone, Copy, Debug, PartialEq, Eq, Error)]
pub enum DriveRefusal {
    /// The gesture of this line is not legal at its place.
    #[error("the gesture of line {0} is not legal at its place")]
    Line(u64),
    /// Memory ran out.
    #[error("out of memory")]
    Memory,
}

impl From<NoMemory> for DriveRefusal {
    ghost use Rattle.std.specs.Prelude.{◌≡◌};
    ghost use Rattle.rip_drive.specs.declared.driver.DriveRefusal.TheVariants.{Memory};

    ghost from_gives = { λ _ refusal. refusal ≡ Memory };

    fn from(_: NoMemory) -> DriveRefusal {
        DriveRefusal::Memory
    }
}

/// A session whose opening is played before its first batch.
pub(crate) trait Openable {
    ghost use Rattle.std.specs.Prelude.{IfOk};
    ghost use Rattle.rip_store.specs.declared.store.Store.{Store as Kept};
    ghost use Rattle.rip_client.specs.declared.whole.play.Over.{Over as Outcome};

    // Its opening is played so, with the store before and behind.
    ghost opens: { Self → Kept → Outcome → Self → Kept → Type 0 };

    /// Plays the one item of the opening.
    fn play_opening(
        &mut self,
        alloc: Global,
        store: &mut Store,
    ) -> Result<rip_client::whole::Over, NoMemory>
        ensures { IfOk result (λ over. opens self.old store.old over self.new store.new) };
}

/// A client that is driven, the store that gives it replies, and the trace so far.
#[derive(Drop)]
pub(crate) struct Driver<A> {
    client: Client<A>,
    store: Store,
    text: Writer,
}

/// Opens a session, and tells the gestures in it: the trace of that.
pub(crate) fn open_and_tell<A: Actor<Store> + Openable + Drop>(
    alloc: Global,
    mut actor: A,
    mut store: Store,
    gestures: &[LinedGesture],
) -> Result<Bytes, DriveRefusal>
    requires { All (λ lined. IsGesture lined.gesture) gestures.now }
    ensures told { IfOk result (IsOpenedAndDriven A.session A.opens actor store gestures.now) }
    ensures refused { IfErr result (IsOpenedAndRefused A.session A.opens actor store gestures.now) }
{
    let mut text = Writer::new(alloc);
    write_opening(&mut text, 0)?;
    match actor.play_opening(alloc, &mut store)?.close {
        Close::Fine => tell_all(alloc, actor, store, text, gestures),
        Close::Stopped { stop, .. } => {
            write_ended(&mut text, reason_of(stop), 0)?;
            Ok(text.into_bytes())
        }
        Close::Refused { .. } | Close::Mismatch { .. } => Err(DriveRefusal::Memory),
    }
}

/// Tells the gestures in a session that was opened, up to one at which it ends. They go behind this text.
fn tell_all<A: Actor<Store> + Drop>(
    alloc: Global,
    actor: A,
    store: Store,
    text: Writer,
    gestures: &[LinedGesture],
) -> Result<Bytes, DriveRefusal>
    requires { All (λ lined. IsGesture lined.gesture) gestures.now }
    ensures told { IfOk result (λ all. IsDriven A.session actor store gestures.now text all) }
    ensures refused { IfErr result (λ why. IsRefused A.session actor store gestures.now why) }
{
    let mut driver = Driver {
        client: Client::new(alloc, actor),
        store,
        text,
    };
    for lined in gestures {
        if let Some(stop) = driver.tell(alloc, lined)? {
            write_ended(&mut driver.text, reason_of(stop), lined.line)?;
            return Ok(driver.text.into_bytes());
        }
    }
    Ok(driver.text.into_bytes())
}

impl<A: Actor<Store> + Drop> Driver<A> {
    /// Tells a gesture, and answers what ended the session there, if anything did.
    fn tell(&mut self, alloc: Global, lined: &LinedGesture) -> Result<Option<Stop>, DriveRefusal>
        requires gesture { IsGesture lined.now.gesture }
        requires on { self.old.client.over ≡ None }
        ensures told { IfOk result (λ stop. TellsSo A.session lined.now self.old self.new stop) }
        ensures on { IfOk result (λ stop. stop ≡ None → self.new.client.over ≡ None) }
        ensures refused { IfErr result (λ why. (others : Items Lined)
            → RefusesFrom A.session self.old (lined.now ∷ others) why) }
    {
        let told = self.client.gesture(alloc, &mut self.store, &lined.gesture);
        let stop = stop_of(told.how, lined.line)?;
        write_batches(alloc, &mut self.text, told.batches.as_slice())?;
        Ok(stop)
    }
}

/// A line for each batch.
fn write_batches(alloc: Global, text: &mut Writer, batches: &[ToldBatch]) -> Result<(), NoMemory>
    ensures { OnOk result (text.new ≡ text.old ++ batch_lines (batches_of batches.now)) }
{
    for told in batches {
        write_batch_line(alloc, text, 0, 1, &told.batch)?;
    }
    Ok(())
}

/// The limit or the fault that ends the session at the gesture of a line, if one does.
fn stop_of(how: HowTold, line: u64) -> Result<Option<Stop>, DriveRefusal>
    ensures told { IfOk result (λ stop. EndsSo how stop) }
    ensures refused { IfErr result (λ why. RefusesSo how line why) }
{
    match how {
        HowTold::Whole | HowTold::Ended(Close::Fine) => Ok(None),
        HowTold::Ended(Close::Stopped { stop, .. }) => Ok(Some(stop)),
        HowTold::Ended(Close::Refused { .. }) => Err(DriveRefusal::Line(line)),
        HowTold::Ended(Close::Mismatch { .. }) | HowTold::Memory => Err(DriveRefusal::Memory),
    }
}

/// The reason of a limit or a fault.
fn reason_of(stop: Stop) -> Reason
    ensures { result ≡ stop_reason stop }
{
    match stop {
        Stop::Limit(limit) => Reason::from(limit),
        Stop::Fault(fault) => Reason::from(fault),
    }
}
