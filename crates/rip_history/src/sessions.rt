use crate::service::Service;
use rip_base::NoMemory;
use rip_log::Entry;
use rip_wire::{Batch, Ending, ServedCall};
use std::alloc::Global;

/// Where and with what a session goes on: in this turn, as the session of this ordinal, at this moment in milliseconds,
/// for so many units.
#[derive(Clone, Copy, Debug)]
pub struct Slice {
    pub turn: u64,
    pub session: u32,
    pub time: u64,
    pub units: u64,
}

/// What a session did in slices: the entries of the calls that it served, and the same calls as they are answered.
#[derive(Drop)]
pub struct Made {
    pub entries: Vec<Entry>,
    pub served: Vec<ServedCall>,
}

/// What a slice comes to.
#[derive(Debug, Drop)]
pub enum Progress {
    /// The batch is not done.
    Busy,
    /// The batch is done, and ended the session so, if it did.
    Finished(Option<Ending>),
}

/// How the sessions of a page begin and go on.
pub trait Sessions {
    ghost use Rattle.std.specs.Prelude.{◌≡◌, ◌<◌, ◌^◌, List, false, IfOk, IfErr, OnOk, OnErr};
    ghost use Rattle.rip_wire.specs.Batches.{contents_of, IsBatch};
    ghost use Rattle.rip_history.specs.Parts.{IsLawful, Meaning};
    ghost use Rattle.rip_history.specs.Services.{Called, Service as Meant};
    ghost use Rattle.rip_history.specs.Stages.{Stage, begun, with_batch, is_done, MayAdmit, Resumed};

    type Session: Drop;

    // What a session does.
    ghost meaning: { Self → Meaning };

    // Its batches and what it is given make what it does in their order.
    ghost lawful: { (sessions : Self) → IsLawful (meaning sessions) };

    // A session stands at a stage.
    ghost stands: { Self → Self.Session → Stage → Type 0 };

    /// A session as it is opened, from this seed and at this moment: nothing has come yet.
    fn begin(&self, alloc: Global, seed: u32, time: u64) -> Result<Self::Session, NoMemory>
        requires { time < 2 ^ 53 }
        ensures { IfOk result (λ session. stands self.now session (begun seed time)) };

    /// Admits a batch to a session. It is handed back for want of memory alone, and then the session is as before.
    fn admit(&self, alloc: Global, session: &mut Self::Session, batch: Batch) -> Result<(), Batch>
        requires { IsBatch (contents_of batch) }
        ensures admitted { (st : Stage) → stands self.now session.old st
            → MayAdmit (meaning self.now) st (contents_of batch)
            → OnOk result (stands self.now session.new (with_batch (contents_of batch) st)) }
        ensures memory { OnErr result (session.new ≡ session.old) }
        ensures back { IfErr result (λ b. b ≡ batch) };

    /// Goes on with a session whose batch is not done. Want of memory in an item ends the session at it, and comes only at an
    /// item that reports a call.
    fn resume<V: Service>(
        &self,
        alloc: Global,
        session: &mut Self::Session,
        service: &mut V,
        slice: &Slice,
        made: &mut Made,
    ) -> Progress
        requires { slice.now.time < 2 ^ 53 }
        ensures { (st : Stage) (replies : Meant) (calls : List Called)
            → stands self.now session.old st → is_done (meaning self.now) st ≡ false
            → V.replies_as service.old replies calls
            → Resumed (meaning self.now) st replies calls slice.now made.old made.new result
            (stands self.now session.new) (V.replies_as service.new replies) };
}
