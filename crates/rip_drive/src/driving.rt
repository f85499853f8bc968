ghost use Rattle.std.specs.Prelude.{[], All, IfErr, IfOk};
ghost use Rattle.rip_client.specs.Sizes.{IsGesture};
ghost use Rattle.rip_history.specs.Services.{RepliesAs, service_of};
ghost use Rattle.rip_drive.specs.Driving.{IsRefusal, IsTrace};

use crate::driver::{DriveRefusal, open_and_tell};
use crate::page_actor::PageActor;
use rip_app::App;
use rip_base::{Bytes, NoMemory};
use rip_store::Store;
use rip_trace::Gestures;
use std::alloc::Global;

/// The random seed of the session.
const SEED: u32 = 3;

/// The trace of the gestures: the batches of a truthful client in a session of the application.
pub fn drive(alloc: Global, app: App, gestures: &Gestures) -> Result<Bytes, DriveRefusal>
    requires { All (λ lined. IsGesture lined.gesture) gestures.now }
    ensures told { IfOk result (λ text. IsTrace app gestures.now text) }
    ensures refused { IfErr result (λ why. IsRefusal app gestures.now why) }
{
    let store = store_of(alloc, &app)?;
    let actor = PageActor::make(alloc, app, SEED)?;
    open_and_tell(alloc, actor, store, gestures.as_slice())
}

/// The store of an application, before any call.
fn store_of(alloc: Global, app: &App) -> Result<Store, NoMemory>
    ensures { IfOk result (λ store. RepliesAs store (service_of app.now.manifest.functions) []) }
{
    Store::make(alloc, app.functions())
}
