ghost use Rattle.std.specs.Prelude.{◌≡◌, ℕ, List, IfOk, map};
ghost use Rattle.rip_log.specs.Entries.{recorded_of};
ghost use Rattle.rip_trace.specs.Traces.{IsTrace};
ghost use Rattle.rip_gen.specs.Served.{IsLogOf, IsServed, IsServedForm, brought, told_by};

use crate::generate::page::load_form;
use rip_app::App;
use rip_base::{NoMemory, NumberList};
use rip_log::{Entries, read_log};
use rip_outer::{MemoryClock, MemoryDoor, MemorySink, MemoryWords};
use rip_serve::Stop;
use rip_serve::site::serve_app;
use rip_trace::{Trace, read_trace};
use std::alloc::Global;

/// The turns that serving may take.
pub const TURNS: u64 = 1_000_000_000;

/// The history of the application of generated work, served to a trace.
pub(crate) fn serve_form(alloc: Global, text: &[u8]) -> Result<Entries, NoMemory>
    ensures { IfOk result (λ entries. IsServedForm text.now (map recorded_of entries)) }
{
    let app = load_form(alloc)?;
    serve_text(alloc, &app, text)
}

/// The history of a trace that an application is served from its start.
#[tactic(auto, using(crate::proofs::ServeLemmas::served_so))]
fn serve_text(alloc: Global, app: &App, text: &[u8]) -> Result<Entries, NoMemory>
    ensures { IfOk result (λ entries. IsServed app.now text.now (map recorded_of entries)) }
{
    let Ok(trace) = read_trace(alloc, text) else {
        return Err(NoMemory);
    };
    let sink = serve_trace(alloc, app, &trace)?;
    match read_log(alloc, sink.bytes()) {
        Ok(entries) => Ok(entries),
        Err(_) => Err(NoMemory),
    }
}

/// What a trace brings, and a sink for what serving it puts, all of them in memory.
#[derive(Drop)]
struct Brought {
    door: MemoryDoor,
    clock: MemoryClock,
    words: MemoryWords,
    sink: MemorySink,
}

/// What this trace brings, of which nothing was asked yet.
fn bring(alloc: Global, trace: &Trace) -> Result<Brought, NoMemory>
    requires { (text : List ℕ) × IsTrace text trace.now }
    ensures { IfOk result (λ b. told_by b.door b.clock b.words b.sink ≡ brought trace.now) }
{
    let none = NumberList::new(alloc);
    Ok(Brought {
        door: MemoryDoor::make(alloc, trace.knocks(), &none, &none)?,
        clock: MemoryClock::make(alloc, trace.moments())?,
        words: MemoryWords::make(alloc, trace.words())?,
        sink: MemorySink::make(alloc, &none)?,
    })
}

/// Serves a trace over memory. Answers what was put, where nothing was left to be done.
fn serve_trace(alloc: Global, app: &App, trace: &Trace) -> Result<MemorySink, NoMemory>
    requires { (text : List ℕ) × IsTrace text trace.now }
    ensures { IfOk result (λ sink. IsLogOf app.now trace.now sink.bytes) }
{
    let mut brought = bring(alloc, trace)?;
    let how = serve_app(
        alloc,
        app,
        TURNS,
        &mut brought.door,
        &mut brought.clock,
        &mut brought.words,
        &mut brought.sink,
    )?;
    match how {
        Stop::Idle => Ok(brought.sink),
        Stop::TurnsSpent | Stop::Outside | Stop::Memory => Err(NoMemory),
    }
}
