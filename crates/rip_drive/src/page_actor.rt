ghost use Rattle.std.specs.Prelude.{◌≡◌, ℕ, [], IfOk};
ghost use Rattle.rip_history.specs.Services.{RepliesAs, Service as Meant};
ghost use Rattle.rip_host.specs.declared.browser.Browser.{Browser};
ghost use Rattle.rip_replica.specs.Parts.{Doing};
ghost use Rattle.rip_session.specs.Application.{doing_of};
ghost use Rattle.rip_wire.specs.Items.{IsItem, reported_of};
ghost use Rattle.rip_session.specs.Tasks.{Task, reports};
ghost use Rattle.rip_drive.specs.Actors.{IsBegun, IsOpened};

use crate::driver::Openable;
use crate::opening::open_session;
use rip_app::App;
use rip_base::NoMemory;
use rip_client::whole::{open_batch, play_next, put_item};
use rip_client::{Actor, Over, WaitingCall};
use rip_session::Session;
use rip_session::work::{Work, works_of};
use rip_store::Store;
use rip_wire::{Batch, Item, ItemList, MOST_ITEMS};
use std::alloc::Global;

/// A session of an application, of which items are played whole at moment 0.
#[derive(Drop)]
pub struct PageActor {
    app: App,
    session: Session,
}

impl PageActor {
    /// A session from this seed, before the one item of its opening.
    pub fn make(alloc: Global, app: App, seed: u32) -> Result<PageActor, NoMemory>
        ensures { IfOk result (λ actor. (actor.app ≡ app)
            × IsBegun app (doing_of app seed 0) actor.session.replica) }
    {
        let session = open_session(alloc, &app, seed)?;
        Ok(PageActor { app, session })
    }

    /// Plays the one item of the opening.
    pub fn open(
        &mut self,
        alloc: Global,
        store: &mut Store,
    ) -> Result<rip_client::whole::Over, NoMemory>
        ensures { (d : Doing Task Browser) (service : Meant)
            → IsBegun self.old.app d self.old.session.replica → RepliesAs store.old service []
            → IfOk result (λ over. IsOpened self.new.app d over self.new.session.replica store.new
            service) }
    {
        let program = self.app.program();
        play_next(alloc, &mut self.session.replica, program, store, 0)
    }
}

impl Openable for PageActor {
    ghost use Rattle.rip_drive.specs.Actors.{OpensPage};

    ghost opens = { OpensPage };

    fn play_opening(
        &mut self,
        alloc: Global,
        store: &mut Store,
    ) -> Result<rip_client::whole::Over, NoMemory> {
        self.open(alloc, store)
    }
}

impl Actor<Store> for PageActor {
    ghost use Rattle.rip_drive.specs.Actors.{page_session};

    ghost session = { page_session };

    fn begin_batch(&mut self, alloc: Global, number: u64) {
        open_batch(alloc, &mut self.session.replica, number);
    }

    fn play(&mut self, alloc: Global, store: &mut Store, item: Item) -> Result<Over, NoMemory> {
        if self.session.replica.runner.planner.batch.len() >= MOST_ITEMS {
            return Err(NoMemory);
        }
        let work = work_of(alloc, item)?;
        put_item(&mut self.session.replica, work)?;
        let program = self.app.program();
        let over = play_next(alloc, &mut self.session.replica, program, store, 0)?;
        Ok(Over {
            close: over.close,
            fuel: over.fuel,
        })
    }

    fn next_call(&self, alloc: Global) -> Result<Option<WaitingCall>, NoMemory> {
        let calls = &self.session.replica.host.calls;
        let taken = calls.taken();
        if taken == u64::MAX {
            return Ok(None);
        }
        match calls.front(alloc)? {
            Some(text) => Ok(Some(WaitingCall {
                number: taken + 1,
                text,
                calls_back: calls.front_callback().is_some(),
            })),
            None => Ok(None),
        }
    }
}

/// What is reported, as an item of a session.
fn work_of(alloc: Global, item: Item) -> Result<Work, NoMemory>
    requires { IsItem (reported_of item) }
    ensures { IfOk result (λ work. work ≡ reports (reported_of item)) }
{
    let mut items = Vec::new(alloc);
    items.push(item)?;
    let batch = Batch {
        number: 1,
        items: ItemList::from_vec(items),
    };
    let mut works = works_of(alloc, &batch)?;
    match works.pop() {
        Some(work) => Ok(work),
        None => unreachable!(),
    }
}
