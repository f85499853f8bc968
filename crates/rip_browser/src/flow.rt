ghost use Rattle.std.specs.Prelude.{◌≡◌, ◌≤◌, None, true, IfOk};

use rip_base::NoMemory;
use rip_events::Cursor;
use std::alloc::Global;

/// The flow of an event under way, or none: where it goes on, the object of the event, and the checkbox that the event
/// turned over.
#[derive(Debug, Drop)]
pub struct Flow {
    pub cursor: Cursor,
    /// There is room for a path in a document of so many nodes.
    pub nodes: u32,
    pub event: u32,
    pub turned: Option<u32>,
    pub over: bool,
    ghost room: { nodes ≤ cursor.nodes },
}

impl Flow {
    /// No flow, with the room for one in a document of so many nodes.
    pub fn make(alloc: Global, nodes: u32) -> Result<Flow, NoMemory>
        ensures { IfOk result (λ flow. (flow.nodes ≡ nodes) × (flow.over ≡ true)
            × (flow.turned ≡ None)) }
    {
        Ok(Flow {
            cursor: Cursor::make(alloc, nodes)?,
            nodes,
            event: 0,
            turned: None,
            over: true,
        })
    }
}
