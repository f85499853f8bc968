ghost use Rattle.std.specs.Prelude.{◌≡◌, ◌≤◌, ℕ, IfOk, Some};
ghost use Rattle.rip_heap.specs.World.{World};
ghost use Rattle.rip_host.specs.Visit.{Fits};
ghost use Rattle.rip_session.specs.Opening.{IsBegun, idle_machine, opened_of, top_scope, with_page, with_scope, without_page};

use rip_app::App;
use rip_base::{Limit, List, NoMemory, Page, Refused, Whole};
use rip_browser::Start;
use rip_heap::{Heap, HeapLimits};
use rip_host::Browser;
use rip_machine::Machine;
use std::alloc::Global;

/// What a session has as it is opened, and what its first item is.
#[derive(Drop)]
pub struct Opened {
    pub heap: Heap,
    pub machine: Machine,
    pub browser: Browser,
    pub start: Start,
}

/// A session as it is opened. It makes four charges, in this order: the top scope, the nodes of the page, its texts, and
/// the literals of the program.
pub fn open(alloc: Global, app: &App, seed: u32, time: Whole) -> Result<Opened, NoMemory>
    ensures opened { IfOk result (λ o. o ≡ opened_of app.now seed time) }
    ensures fits { IfOk result (λ o. Fits o.browser o.heap) }
{
    let (heap, limit) = begin_heap(alloc, app)?;
    match limit {
        None => open_page(alloc, app, heap, seed, time),
        Some(limit) => open_without_page(alloc, app, heap, limit, seed, time),
    }
}

/// The heap of a session with its top scope; or without it, and the limit that it would pass.
fn begin_heap(alloc: Global, app: &App) -> Result<(Heap, Option<Limit>), NoMemory>
    ensures { IfOk result (λ r. IsBegun app.now r.0 r.1) }
{
    let limits = app.limits();
    let mut heap = Heap::make(
        alloc,
        HeapLimits {
            cells: limits.cells,
            units: limits.units,
            text: limits.text,
        },
    )?;
    match heap.new_scope(alloc, None, app.program().top_names()) {
        Ok(_) => Ok((heap, None)),
        Err(Refused::Limit(limit)) => Ok((heap, Some(limit))),
        Err(Refused::Memory) => Err(NoMemory),
    }
}

/// The machine before the program is loaded, with the memory for the runs of an item.
fn begin_machine(alloc: Global, app: &App) -> Result<Machine, NoMemory>
    ensures { IfOk result (λ m. m ≡ idle_machine app.now.manifest.limits) }
{
    let limits = app.limits();
    let mut machine = Machine::make(alloc, limits.depth)?;
    machine.reserve(limits.fuel)?;
    Ok(machine)
}

/// Makes the page in a heap with the top scope.
fn open_page(
    alloc: Global,
    app: &App,
    mut heap: Heap,
    seed: u32,
    time: Whole,
) -> Result<Opened, NoMemory>
    requires { IsBegun app.now heap None }
    ensures opened { IfOk result (λ o. o ≡ with_scope app.now heap seed time) }
    ensures fits { IfOk result (λ o. Fits o.browser o.heap) }
{
    let limits = app.limits();
    match Browser::make(alloc, app.page(), limits, heap.pool_mut(), seed, time) {
        Ok(browser) => load_program(alloc, app, heap, browser),
        Err(Refused::Limit(limit)) => {
            drop(heap);
            open_again(alloc, app, limit, seed, time)
        }
        Err(Refused::Memory) => Err(NoMemory),
    }
}

/// A session whose page would pass this limit, in a heap with the top scope that is made anew, where the first was let go.
fn open_again(
    alloc: Global,
    app: &App,
    limit: Limit,
    seed: u32,
    time: Whole,
) -> Result<Opened, NoMemory>
    ensures opened { (w : World) → IsBegun app.now w None
        → IfOk result (λ o. o ≡ without_page app.now limit w seed time) }
    ensures fits { IfOk result (λ o. Fits o.browser o.heap) }
{
    let (heap, _) = begin_heap(alloc, app)?;
    open_without_page(alloc, app, heap, limit, seed, time)
}

/// A session whose page would pass this limit: its page has no node.
fn open_without_page(
    alloc: Global,
    app: &App,
    mut heap: Heap,
    limit: Limit,
    seed: u32,
    time: Whole,
) -> Result<Opened, NoMemory>
    requires { heap.limit ≡ app.now.manifest.limits.cells }
    ensures opened { IfOk result (λ o. o ≡ without_page app.now limit heap seed time) }
    ensures fits { IfOk result (λ o. Fits o.browser o.heap) }
{
    let page = Page::new(List::new(alloc), List::new(alloc));
    let _ = heap.pool().free();
    match Browser::make(alloc, &page, app.limits(), heap.pool_mut(), seed, time) {
        Ok(browser) => Ok(Opened {
            heap,
            machine: begin_machine(alloc, app)?,
            browser,
            start: Start::Passes(limit),
        }),
        Err(Refused::Limit(_)) => unreachable!(),
        Err(Refused::Memory) => Err(NoMemory),
    }
}

/// Charges the literals of the program and loads it, behind a page that is made.
fn load_program(
    alloc: Global,
    app: &App,
    mut heap: Heap,
    browser: Browser,
) -> Result<Opened, NoMemory>
    requires { Fits browser heap }
    ensures opened { IfOk result (λ o. o ≡ with_page app.now heap browser) }
    ensures fits { IfOk result (λ o. Fits o.browser o.heap) }
{
    let program = app.program();
    let mut machine = begin_machine(alloc, app)?;
    let start = match machine.load(alloc, program, &mut heap) {
        Ok(()) => Start::Loads {
            scripts: program.scripts(),
        },
        Err(Refused::Limit(limit)) => Start::Passes(limit),
        Err(Refused::Memory) => return Err(NoMemory),
    };
    Ok(Opened {
        heap,
        machine,
        browser,
        start,
    })
}
