ghost use Rattle.std.specs.Prelude.{◌≡◌, ◌+◌, ◌<◌, false, true, set, slice_get, None, Some, IfOk, OnOk, if◌then◌else◌};
ghost use Rattle.rip_client.specs.Sizes.{IsGesture};
ghost use Rattle.rip_gen.specs.Plans.{IsPlan};
ghost use Rattle.rip_gen.specs.Work.{AreLinesOf, is_fine, may_lie};
ghost use Rattle.rip_gen.specs.Working.{AreOn, GoesOn, OpensTo, PlaysTo, TellsSo, sessions_by, taken};

use crate::generate::lie::lie_in;
use crate::generate::trace::{write_open, write_told};
use crate::{GenPlan, ROUNDS};
use rip_base::{NoMemory, Writer};
use rip_client::{Actor, Client, HowTold};
use rip_eval_rows::Close;
use rip_wire::Gesture;
use std::alloc::Global;
use std::mem;

/// The round from which on the liar lies, counted from 0.
const LYING_ROUND: u32 = 19;

/// A session that was opened: how its opening closed, and the units that it took.
#[derive(Drop)]
pub(crate) struct Opening<A> {
    pub(crate) actor: A,
    pub(crate) close: Close,
    pub(crate) cost: u64,
}

/// What opens the sessions of work, where A is the type of a session and G that of what gives replies.
pub(crate) trait Opens<A, G> {
    ghost use Rattle.std.specs.Prelude.{ℕ, IfOk};
    ghost use Rattle.rip_eval_rows.specs.declared.close.Close.{Close as Closes};

    // The session at a place opens and closes so, with what gives replies before and behind.
    ghost opens: { ℕ → G → Closes → A → G → Type 0 };

    // It gives replies, before any call.
    ghost gives: { G → Type 0 };

    /// What gives replies, before any call.
    fn giver(&self, alloc: Global) -> Result<G, NoMemory>
        ensures { IfOk result gives };

    /// Opens the session at a place, where the first is at 0.
    fn open(&self, alloc: Global, place: u32, giver: &mut G) -> Result<Opening<A>, NoMemory>
        requires { place < 32 }
        ensures { IfOk result (λ o. opens place giver.old o.close o.actor giver.new) };
}

/// Work: what opens its sessions; the client of each, or none of one that has ended; what gives them replies; whether
/// the lie was told; and the lines so far.
#[derive(Drop)]
pub(crate) struct Work<O, A, G> {
    opener: O,
    clients: Vec<Option<Client<A>>>,
    giver: G,
    lied: bool,
    text: Writer,
}

/// The lines of a plan.
pub(crate) fn lines_of<O: Opens<A, G> + Drop, A: Actor<G> + Drop, G: Drop>(
    alloc: Global,
    opener: O,
    plan: &GenPlan,
) -> Result<Writer, NoMemory>
    requires { IsPlan plan.now }
    ensures { IfOk result (AreLinesOf (sessions_by A.session O.opens O.gives) plan.now) }
{
    let mut work: Work<O, A, G> = Work::begin(alloc, opener)?;
    work.open_all(alloc, plan)?;
    for round in 0..ROUNDS {
        work.play(alloc, plan, round)?;
    }
    Ok(work.text)
}

impl<O: Opens<A, G> + Drop, A: Actor<G> + Drop, G: Drop> Work<O, A, G> {
    /// Work before the first session is opened.
    fn begin(alloc: Global, opener: O) -> Result<Work<O, A, G>, NoMemory>
        ensures { IfOk result (OpensTo (sessions_by A.session O.opens O.gives) 0) }
    {
        let giver = opener.giver(alloc)?;
        Ok(Work {
            opener,
            clients: Vec::new(alloc),
            giver,
            lied: false,
            text: Writer::new(alloc),
        })
    }

    /// Opens the sessions of a plan, in order.
    fn open_all(&mut self, alloc: Global, plan: &GenPlan) -> Result<(), NoMemory>
        requires plan { IsPlan plan.now }
        requires none { OpensTo (sessions_by A.session O.opens O.gives) 0 self.old }
        ensures { OnOk result
            (PlaysTo (sessions_by A.session O.opens O.gives) plan.now 0 0 self.new) }
    {
        for place in 0..plan.sessions() {
            self.open(alloc, place)?;
        }
        Ok(())
    }

    /// Opens the next session.
    fn open(&mut self, alloc: Global, place: u32) -> Result<(), NoMemory>
        requires few { place < 32 }
        requires there { OpensTo (sessions_by A.session O.opens O.gives) place self.old }
        ensures { OnOk result
            (OpensTo (sessions_by A.session O.opens O.gives) (place + 1) self.new) }
    {
        let opened = self.opener.open(alloc, place, &mut self.giver)?;
        let goes_on = is_fine(opened.close);
        write_open(&mut self.text, place, opened.cost)?;
        let client = Client::new(alloc, opened.actor);
        self.clients.push(kept(client, goes_on))?;
        Ok(())
    }

    /// A round: one gesture of each session, in order.
    #[tactic(auto, using(crate::proofs::GeneratePlanLemmas::may_be_told))]
    fn play(&mut self, alloc: Global, plan: &GenPlan, round: u32) -> Result<(), NoMemory>
        requires plan { IsPlan plan.now }
        requires round { round < 40 }
        requires there { PlaysTo (sessions_by A.session O.opens O.gives) plan.now round 0 self.old }
        ensures { OnOk result (PlaysTo (sessions_by A.session O.opens O.gives) plan.now
            (round + 1) 0 self.new) }
    {
        for place in 0..plan.sessions() {
            let gesture = plan.gesture(round + 1, place + 1);
            if self.may_lie(plan, round, place) {
                self.tell_lying(alloc, place, gesture)?;
            } else {
                self.tell(alloc, place, gesture)?;
            }
        }
        Ok(())
    }

    /// Whether the session at a place is to lie, if it tells a call.
    fn may_lie(&self, plan: &GenPlan, round: u32, place: u32) -> bool
        requires { place < 32 }
        ensures { result ≡ may_lie plan.now round place self.now.lied }
    {
        !self.lied && LYING_ROUND <= round && place + 1 == plan.liar()
    }

    /// Tells a gesture of a session, if it has not ended.
    fn tell(&mut self, alloc: Global, place: u32, gesture: &Gesture) -> Result<(), NoMemory>
        requires gesture { IsGesture gesture.now }
        requires on { AreOn self.old.clients.items }
        ensures { OnOk result (TellsSo (sessions_by A.session O.opens O.gives) place gesture.now
            false self.old self.new) }
    {
        let Some(mut client) = self.take(place) else {
            return Ok(());
        };
        let told = client.gesture(alloc, &mut self.giver, gesture);
        let goes_on = goes_on(told.how)?;
        write_told(alloc, &mut self.text, place, told.batches.as_slice())?;
        self.put(place, kept(client, goes_on));
        Ok(())
    }

    /// The same of the liar, which lies if it tells a call, and then has ended. What it tells is kept from the others:
    /// its calls are given replies apart.
    fn tell_lying(&mut self, alloc: Global, place: u32, gesture: &Gesture) -> Result<(), NoMemory>
        requires gesture { IsGesture gesture.now }
        requires on { AreOn self.old.clients.items }
        ensures { OnOk result (TellsSo (sessions_by A.session O.opens O.gives) place gesture.now
            true self.old self.new) }
    {
        let Some(mut client) = self.take(place) else {
            return Ok(());
        };
        let mut giver = self.opener.giver(alloc)?;
        let told = client.gesture(alloc, &mut giver, gesture);
        let goes_on = goes_on(told.how)?;
        let lie = lie_in(alloc, told.batches)?;
        write_told(alloc, &mut self.text, place, lie.batches.as_slice())?;
        self.lied = lie.is_told;
        self.put(place, kept(client, is_on(goes_on, lie.is_told)));
        Ok(())
    }

    /// The client of the session at a place, which has none from now on.
    fn take(&mut self, place: u32) -> Option<Client<A>>
        ensures taken { result ≡ taken (slice_get self.old.clients.items place) }
        ensures clients { self.new.clients.items ≡ set self.old.clients.items place None }
        ensures others { (self.new.giver ≡ self.old.giver) × (self.new.lied ≡ self.old.lied)
            × (self.new.text ≡ self.old.text) }
    {
        match self.clients.get_mut(place as usize) {
            Some(client) => mem::replace(client, None),
            None => None,
        }
    }

    /// The session at a place has this client, or none.
    fn put(&mut self, place: u32, client: Option<Client<A>>)
        ensures clients { self.new.clients.items ≡ set self.old.clients.items place client }
        ensures others { (self.new.giver ≡ self.old.giver) × (self.new.lied ≡ self.old.lied)
            × (self.new.text ≡ self.old.text) }
    {
        if let Some(here) = self.clients.get_mut(place as usize) {
            *here = client;
        }
    }
}

/// The client of a session, if it goes on.
fn kept<A: Drop>(client: Client<A>, goes_on: bool) -> Option<Client<A>>
    ensures { result ≡ (if goes_on then Some client else None) }
{
    if goes_on { Some(client) } else { None }
}

/// Whether a session that would go on does so where it may have lied.
fn is_on(goes_on: bool, lied: bool) -> bool
    ensures { result ≡ (if lied then false else goes_on) }
{
    !lied && goes_on
}

/// Whether a session goes on behind an item that closed so.
fn is_fine(close: Close) -> bool
    ensures { result ≡ is_fine close }
{
    match close {
        Close::Fine => true,
        Close::Refused { .. } | Close::Mismatch { .. } | Close::Stopped { .. } => false,
    }
}

/// Whether a session goes on behind a gesture that was told so.
fn goes_on(how: HowTold) -> Result<bool, NoMemory>
    ensures { IfOk result (GoesOn how) }
{
    match how {
        HowTold::Whole => Ok(true),
        HowTold::Ended(close) => Ok(is_fine(close)),
        HowTold::Memory => Err(NoMemory),
    }
}
