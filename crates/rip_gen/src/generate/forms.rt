ghost use Rattle.std.specs.Prelude.{IfOk};
ghost use Rattle.rip_gen.specs.Plans.{IsPlan};
ghost use Rattle.rip_gen.specs.Forms.{IsTraceOfForm};

use crate::GenPlan;
use crate::generate::page::load_form;
use crate::generate::work::{Opening, Opens, lines_of};
use rip_base::{NoMemory, Writer};
use rip_drive::PageActor;
use rip_store::Store;
use std::alloc::Global;

/// The sessions of the application of generated work.
#[derive(Clone, Copy, Debug)]
pub(crate) struct Forms;

impl Opens<PageActor, Store> for Forms {
    ghost use Rattle.rip_gen.specs.Forms.{GivesForm, OpensForm};

    ghost opens = { OpensForm };

    ghost gives = { GivesForm };

    fn giver(&self, alloc: Global) -> Result<Store, NoMemory> {
        let app = load_form(alloc)?;
        Store::make(alloc, app.functions())
    }

    fn open(
        &self,
        alloc: Global,
        place: u32,
        store: &mut Store,
    ) -> Result<Opening<PageActor>, NoMemory> {
        let app = load_form(alloc)?;
        let mut actor = PageActor::make(alloc, app, 3 * (place + 1))?;
        let over = actor.open(alloc, store)?;
        Ok(Opening {
            actor,
            close: over.close,
            cost: over.fuel.saturating_add(2),
        })
    }
}

/// The trace of a plan.
pub(crate) fn trace_of(alloc: Global, plan: &GenPlan) -> Result<Writer, NoMemory>
    requires { IsPlan plan.now }
    ensures { IfOk result (IsTraceOfForm plan.now) }
{
    lines_of::<Forms, PageActor, Store>(alloc, Forms, plan)
}
