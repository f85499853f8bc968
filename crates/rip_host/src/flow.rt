ghost use Rattle.std.specs.Prelude.{◌≡◌, ◌<◌, ℕ, IfSome};
ghost use Rattle.rip_heap.specs.World.{World, first_node};
ghost use Rattle.rip_eval_rows.specs.Plan.{Plan};
ghost use Rattle.rip_host.specs.declared.browser.Browser.{Browser as Page};
ghost use Rattle.rip_host.specs.Flow.{flow_ahead, flow_left, flow_steps};
ghost use Rattle.rip_host.specs.Visit.{Fits};

use crate::browser::Browser;
use rip_events::{Cursor, Place, Station};
use rip_heap::Heap;

/// The next call of the flow of an event, with the event at its station; or none, and the event nowhere, where the flow
/// is over. What is left of the flow is that call and what is left behind it, whatever was done since the last one.
pub fn next_call(
    cursor: &mut Cursor,
    heap: &Heap,
    browser: &mut Browser,
    event: u32,
) -> Option<Place>
    requires { Fits browser.old heap.now }
    ensures plan { (item : ℕ) (done : World → Page → Plan Page) →
        flow_left item event cursor.old done heap.now browser.old
        ≡ flow_ahead item event cursor.new result done heap.now browser.new }
    ensures fewer { IfSome result (λ _. flow_steps cursor.new < flow_steps cursor.old) }
    ensures node { IfSome result (λ place. place.node < first_node) }
    ensures room { cursor.new.nodes ≡ cursor.old.nodes }
    ensures fits { Fits browser.new heap.now }
{
    let _count = browser.listeners.count();
    let stopped = browser.stopped(event);
    match cursor.next(heap, &browser.listeners, stopped) {
        Some(place) => {
            browser.event_at(
                event,
                Some(Station {
                    node: place.node,
                    phase: place.phase,
                }),
            );
            Some(place)
        }
        None => {
            browser.event_at(event, None);
            None
        }
    }
}
