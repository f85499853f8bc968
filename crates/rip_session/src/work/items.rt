ghost use Rattle.std.specs.Prelude.{◌≡◌, IfOk};
ghost use Rattle.rip_session.specs.Plans.{room_of};

use crate::work::copy::copy_call;
use crate::work::ending::ending_of;
use crate::work::serving::{may_serve, moment_of};
use crate::work::work::Work;
use rip_base::NoMemory;
use rip_browser::{Flow, Start, StartItems};
use rip_data::Datum;
use rip_eval_rows::{Close, Step};
use rip_heap::{Heap, Host};
use rip_host::Browser;
use rip_replica::items::{Item, Items, SessionItems, UnderWay};
use rip_replica::{Call, Works};
use rip_wire::Ending;
use std::alloc::Global;

/// The items of a session, planned step by step over its browser.
#[derive(Drop)]
pub struct PageItems {
    pub opening: StartItems,
    pub batches: SessionItems<Flow>,
}

impl PageItems {
    /// Before the opening, in a document of at most so many nodes.
    pub fn make(alloc: Global, nodes: u32) -> Result<PageItems, NoMemory>
        ensures batch { IfOk result (λ items. items.batches.batch ≡ 0) }
        ensures room { IfOk result (λ items. room_of items ≡ nodes) }
    {
        Ok(PageItems {
            opening: StartItems::new(Flow::make(alloc, nodes)?),
            batches: SessionItems {
                batch: 0,
                flow: Flow::make(alloc, nodes)?,
                under_way: UnderWay::Fresh,
            },
        })
    }
}

impl Items<Browser, Work> for PageItems {
    ghost use Rattle.rip_session.specs.Plans.{left_of_work, most_of_work, room_of, steps_of_work, work_plan};

    ghost item_plan = { λ items. work_plan items.batches.batch };

    ghost under_way = { left_of_work };

    ghost steps = { steps_of_work };

    ghost most = { λ _. most_of_work };

    ghost room = { room_of };

    ghost need = { λ browser. browser.dom.limit };

    fn begin(&mut self) {
        Items::<Browser, Start>::begin(&mut self.opening);
        Items::<Browser, Item>::begin(&mut self.batches);
    }

    fn next_of(
        &mut self,
        alloc: Global,
        item: &Work,
        number: u32,
        heap: &mut Heap,
        host: &mut Browser,
    ) -> Result<Step, NoMemory> {
        match item.as_item() {
            Err(start) => self.opening.next_of(alloc, &start, number, heap, host),
            Ok(item) => self.batches.next_of(alloc, item, number, heap, host),
        }
    }
}

impl Works<Browser, Work> for PageItems {
    ghost use Rattle.rip_session.specs.Endings.{ending_of};
    ghost use Rattle.rip_session.specs.Plans.{work_plan};
    ghost use Rattle.rip_session.specs.Serving.{may_serve, served};
    ghost use Rattle.rip_session.specs.Tasks.{fact_of};

    ghost plans = { work_plan };

    ghost fact = { fact_of };

    ghost may_serve = { may_serve };

    ghost served = { served };

    ghost ending = { ending_of };

    ghost use Rattle.rip_session.specs.Shapes.{mismatches_are_told, shapes, still};

    ghost differs = { mismatches_are_told };

    ghost shapes = { shapes };

    ghost still = { still };

    fn enter(&mut self, batch: u64) {
        self.batches.batch = batch;
    }

    fn call(alloc: Global, item: &Work) -> Result<Option<Call>, NoMemory> {
        match item.as_call() {
            Some(call) => Ok(Some(copy_call(alloc, call.number, &call.name, &call.args)?)),
            None => Ok(None),
        }
    }

    fn can_serve(host: &Browser) -> bool {
        may_serve(host)
    }

    fn serve(_heap: &Heap, host: &mut Browser, batch: u64, time: u64, reply: Datum) {
        host.serve(batch, moment_of(time), reply);
    }

    fn ending(
        alloc: Global,
        batch: &Vec<Work>,
        close: Close,
        host: &Browser,
    ) -> Result<Ending, NoMemory> {
        ending_of(alloc, batch, close, host)
    }
}
