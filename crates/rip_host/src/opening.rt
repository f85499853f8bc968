ghost use Rattle.std.specs.Prelude.{◌≡◌, ◌<◌, IfOk, IfSome, length};
ghost use Rattle.rip_heap.specs.World.{World};
ghost use Rattle.rip_host.specs.Opening.{Begins, body_from, is_body};
ghost use Rattle.rip_host.specs.Visit.{Fits};

use crate::browser::Browser;
use crate::events::Events;
use crate::replies::Undelivered;
use rip_base::{NodeKind, Page, PageNode, Refused, Whole};
use rip_calls::Queue;
use rip_convert::CallRow;
use rip_dom::Dom;
use rip_events::Listeners;
use rip_forms::Forms;
use rip_limits::Limits;
use rip_values::{FIRST_NODE, Pool};
use std::alloc::Global;

/// The names of attributes and elements that a browser knows from the start.
const CLASS: [u16; 5] = [99, 108, 97, 115, 115];

const BODY: [u16; 4] = [98, 111, 100, 121];

impl Browser {
    /// What stands behind the objects of a page before its first script, with all rooms for these limits. The limits of nodes and
    /// of units are those of the document; a limit of nodes past the numbers that objects of nodes have is want of memory. One
    /// listener more than cells has room, so that the limit of cells always comes first. Where it is refused, texts may be left
    /// in the pool.
    pub fn make(
        alloc: Global,
        page: &Page,
        limits: &Limits,
        pool: &mut Pool,
        seed: u32,
        time: Whole,
    ) -> Result<Browser, Refused>
        ensures begins { Begins page.now.nodes limits.now pool.old seed time result pool.new }
        ensures fits { IfOk result (λ s. (w : World) → w.pool ≡ pool.new →
            w.limit ≡ limits.now.cells → Fits s w) }
    {
        if page.count() > FIRST_NODE || limits.cells == u32::MAX {
            return Err(Refused::Memory);
        }
        let dom = Dom::make(alloc, page, pool, limits.nodes)?;
        let nodes = dom.limit();
        if nodes > FIRST_NODE {
            return Err(Refused::Memory);
        }
        let class = pool.add_fixed(alloc, &CLASS)?;
        Ok(Browser {
            forms: Forms::make(alloc, nodes)?,
            listeners: Listeners::make(alloc, limits.cells + 1, nodes)?,
            events: Events::make(alloc, limits.cells)?,
            calls: Queue::make(alloc, limits.queue)?,
            undelivered: Undelivered::make(alloc, limits.replies)?,
            row: CallRow::make(alloc, limits.cells)?,
            moment: time,
            random: seed,
            body: body_of(page),
            class,
            alloc,
            dom,
        })
    }
}

// The first element with the name `body`.
fn body_of(page: &Page) -> Option<u32>
    ensures body { result ≡ body_from 0 page.now.nodes }
    ensures there { IfSome result (λ b. b < length page.now.nodes) }
{
    for i in 0..page.count() {
        if is_body(page.node(i)) {
            return Some(i);
        }
    }
    None
}

fn is_body(node: &PageNode) -> bool
    ensures { result ≡ is_body node.now }
{
    matches!(node.kind, NodeKind::Element) && node.name.as_slice() == BODY.as_slice()
}
