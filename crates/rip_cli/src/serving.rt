ghost use Rattle.std.specs.Prelude.{◌≡◌, ℕ, List, IfOk, OnErr};
ghost use Rattle.rip_trace.specs.Traces.{IsTrace};
ghost use Rattle.rip_cli.specs.Service.{Replayed};

use crate::trace_door::TraceDoor;
use rip_app::App;
use rip_base::NoMemory;
use rip_outer::{MemoryClock, MemoryWords, Sink};
use rip_serve::Stop;
use rip_serve::site::serve_app;
use rip_trace::Trace;
use std::alloc::Global;

/// Serves the application to what the trace brings, from memory. Want of memory before the first turn leaves the sink as it
/// was.
pub fn replay<S: Sink>(
    alloc: Global,
    app: &App,
    trace: &Trace,
    turns: u64,
    out: &mut S,
) -> Result<Stop, NoMemory>
    requires { (text : List ℕ) × IsTrace text trace.now }
    ensures served { IfOk result (λ how. Replayed app.now trace.now turns how
        (S.held out.old) (S.held out.new) (S.count out.old) (S.count out.new)) }
    ensures memory { OnErr result (out.new ≡ out.old) }
{
    let mut door = TraceDoor::make(alloc, trace.knocks())?;
    let mut clock = MemoryClock::make(alloc, trace.moments())?;
    let mut words = MemoryWords::make(alloc, trace.words())?;
    serve_app(alloc, app, turns, &mut door, &mut clock, &mut words, out)
}
