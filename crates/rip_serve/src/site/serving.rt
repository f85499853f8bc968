ghost use Rattle.std.specs.Prelude.{◌≡◌, IfOk, OnErr};
ghost use Rattle.rip_server.specs.Acts.{seen};
ghost use Rattle.rip_server.specs.Turning.{outer, source};
ghost use Rattle.rip_serve.specs.Sites.{ServesApp};

use crate::{Stop, serve};
use rip_app::App;
use rip_base::NoMemory;
use rip_outer::{Clock, Door, Sink, Words};
use rip_server::turn::Site;
use rip_session::Application;
use rip_store::Store;
use std::alloc::Global;

/// Serves the application at the door, for at most so many turns. Want of memory before the first turn leaves all as it was.
pub fn serve_app<D: Door, C: Clock, W: Words, S: Sink>(
    alloc: Global,
    app: &App,
    turns: u64,
    door: &mut D,
    clock: &mut C,
    random: &mut W,
    out: &mut S,
) -> Result<Stop, NoMemory>
    ensures served { IfOk result (λ how. ServesApp app.now turns how
        (outer (seen (D.sent door.old) (D.knocks door.old) (D.shuts door.old) (D.asked door.old)
        (S.held out.old)) (source (C.told clock.old) (C.coming clock.old))
        (source (W.told random.old) (W.coming random.old)) (D.count door.old) (S.count out.old))
        (outer (seen (D.sent door.new) (D.knocks door.new) (D.shuts door.new) (D.asked door.new)
        (S.held out.new)) (source (C.told clock.new) (C.coming clock.new))
        (source (W.told random.new) (W.coming random.new)) (D.count door.new) (S.count out.new))) }
    ensures memory { OnErr result ((door.new ≡ door.old) × (clock.new ≡ clock.old)
        × (random.new ≡ random.old) × (out.new ≡ out.old)) }
{
    let mut store = Store::make(alloc, app.functions())?;
    let sessions = Application::of(app);
    let site = Site {
        sessions: &sessions,
        limit: app.limits().sessions,
        page: app.bytes(),
    };
    Ok(serve(alloc, &site, &mut store, door, clock, random, out, turns))
}
