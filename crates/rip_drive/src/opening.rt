ghost use Rattle.std.specs.Prelude.{IfOk};
ghost use Rattle.rip_session.specs.Application.{doing_of};
ghost use Rattle.rip_drive.specs.Actors.{IsBegun};

use rip_app::App;
use rip_base::NoMemory;
use rip_replica::scheduler::Runner;
use rip_replica::{AtItem, Place, Replica};
use rip_session::work::{PageItems, Work, moment_of};
use rip_session::{Opened, Session, open};
use std::alloc::Global;

/// A session from this seed and at moment 0, before the one item of its opening.
pub(crate) fn open_session(alloc: Global, app: &App, seed: u32) -> Result<Session, NoMemory>
    ensures { IfOk result (λ session. IsBegun app.now (doing_of app.now seed 0) session.replica) }
{
    let Opened {
        heap,
        machine,
        browser,
        start,
    } = open(alloc, app, seed, moment_of(0))?;
    let limits = app.limits();
    let items = PageItems::make(alloc, limits.nodes)?;
    let mut batch = Vec::new(alloc);
    batch.push(Work::opens(start))?;
    let planner = AtItem {
        items,
        batch,
        begun: 0,
    };
    Ok(Session {
        replica: Replica {
            runner: Runner::new(machine, planner, limits.fuel),
            place: Place::First,
            number: 0,
            heap,
            host: browser,
        },
    })
}
