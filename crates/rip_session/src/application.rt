ghost use Rattle.std.specs.Prelude.{◌≡◌, ◌≤◌, ℕ, false, length, List, Some};
ghost use Rattle.std.proofs.Props.{props};
ghost use Rattle.rip_calls.specs.Calls.{used};
ghost use Rattle.rip_wire.specs.declared.ending.Ending.{Ending as Ends};
ghost use Rattle.rip_history.specs.Services.{Called, Service as Meant};
ghost use Rattle.rip_history.specs.Stages.{Resumed, Stage, is_done};
ghost use Rattle.rip_replica.specs.Rooms.{IsCallAt};
ghost use Rattle.rip_session.specs.Application.{StandsAt, meaning_of_app};
ghost use Rattle.rip_session.specs.Kept.{GoesWith};
ghost use Rattle.rip_session.specs.Tasks.{fact_of};

use crate::opening::{Opened, open};
use crate::work::{PageItems, Work, moment_of, works_of};
use rip_app::App;
use rip_base::NoMemory;
use rip_heap::Heap;
use rip_history::{Made, Progress, Service, Sessions, Slice};
use rip_host::Browser;
use rip_machine::Machine;
use rip_replica::Replica;
use rip_wire::Batch;
use std::alloc::Global;

/// An application, as sessions go by it.
#[derive(Clone, Copy)]
pub struct Application<'a> {
    app: &'a App,
}

/// A session of an application: its replica, whose browser goes with its heap.
#[derive(Drop)]
pub struct Session {
    pub replica: Replica<Machine, PageItems, Work, Browser>,
    ghost goes: { GoesWith replica.host replica.heap } by { Prim.hlevel props },
}

impl<'a> Application<'a> {
    /// The sessions of this application.
    pub fn of(app: &'a App) -> Application<'a>
        ensures { result.app.now ≡ app.now }
    {
        Application { app }
    }

    pub fn app(&self) -> &'a App
        ensures { result.now ≡ self.now.app.now }
    {
        self.app
    }
}

impl<'a> Sessions for Application<'a> {
    ghost use Rattle.rip_session.specs.Application.{StandsAt, meaning_of_app};
    ghost use Rattle.rip_session.specs.Lawful.{app_is_lawful};

    type Session = Session;

    ghost meaning = { λ sessions. meaning_of_app sessions.app.now };

    ghost lawful = { λ sessions. app_is_lawful sessions.app.now };

    ghost stands = { λ sessions session st. StandsAt sessions.app.now session.replica st };

    fn begin(&self, alloc: Global, seed: u32, time: u64) -> Result<Session, NoMemory> {
        let Opened {
            heap,
            machine,
            browser,
            start,
        } = open(alloc, self.app, seed, moment_of(time))?;
        is_within(&heap);
        is_page_within(&browser);
        let limits = self.app.limits();
        let items = PageItems::make(alloc, limits.nodes)?;
        let opening = Work::opens(start);
        Ok(Session {
            replica: rip_law_replica::stages::open(
                alloc,
                machine,
                items,
                opening,
                limits.fuel,
                heap,
                browser,
            )?,
        })
    }

    fn admit(&self, alloc: Global, session: &mut Session, batch: Batch) -> Result<(), Batch> {
        match works_of(alloc, &batch) {
            Ok(works) => {
                rip_law_replica::stages::admit(&mut session.replica, batch.number, works);
                Ok(())
            }
            Err(NoMemory) => Err(batch),
        }
    }

    fn resume<V: Service>(
        &self,
        alloc: Global,
        session: &mut Session,
        service: &mut V,
        slice: &Slice,
        made: &mut Made,
    ) -> Progress {
        resume_session(session, alloc, self.app, service, slice, made)
    }
}

/// Goes on with a session of an application whose batch is not done. It is ended for want of memory only at an item that
/// reports a call: at no event, no reply and not at its opening.
pub fn resume_session<V: Service>(
    session: &mut Session,
    alloc: Global,
    app: &App,
    service: &mut V,
    slice: &Slice,
    made: &mut Made,
) -> Progress
    ensures memory { (st : Stage) (replies : Meant) (calls : List Called)
        → StandsAt app.now session.old.replica st → is_done (meaning_of_app app.now) st ≡ false
        → V.replies_as service.old replies calls
        → (item : ℕ) → result ≡ Progress.Finished (Some (Ends.Memory item))
        → IsCallAt fact_of session.new.replica.runner.planner.batch.items item }
    ensures resumed { (st : Stage) (replies : Meant) (calls : List Called)
        → StandsAt app.now session.old.replica st → is_done (meaning_of_app app.now) st ≡ false
        → V.replies_as service.old replies calls
        → Resumed (meaning_of_app app.now) st replies calls slice.now made.old made.new result
        (StandsAt app.now session.new.replica) (V.replies_as service.new replies) }
{
    let program = app.program();
    let progress = rip_law_replica::stages::resume(
        &mut session.replica,
        alloc,
        program,
        service,
        slice,
        made,
    );
    is_within(&session.replica.heap);
    is_page_within(&session.replica.host);
    progress
}

/// No work, and what holds of each heap: it passes no limit of its own.
fn is_within(heap: &Heap)
    ensures cells { heap.now.cells ≤ heap.now.limit }
    ensures units { heap.now.pool.used ≤ heap.now.pool.limit }
{
    let _ = heap.free_cells();
    let _ = heap.pool().free();
}

/// No work, and what holds of each page: it passes no limit of its own.
fn is_page_within(page: &Browser)
    ensures nodes { page.now.dom.used ≤ page.now.dom.limit }
    ensures waiting { used page.now.calls ≤ page.now.calls.limit }
    ensures replies { length page.now.undelivered.replies ≤ page.now.undelivered.most }
{
    let _ = page.dom.used();
    let _ = page.calls.used();
    let _ = page.undelivered.count();
}
