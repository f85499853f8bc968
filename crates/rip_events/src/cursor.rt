ghost use Rattle.std.specs.Prelude.{◌≡◌, ◌+◌, ◌≤◌, ◌++◌, [], IfOk, length, vec_capacity};
ghost use Rattle.rip_events.specs.Flow.{above, in_phase, begun};

use crate::station::{Phase, Station};
use rip_base::{NoMemory, Span};
use rip_dom::Dom;
use std::alloc::Global;
use std::marker::Model;

/// The flow of one event at a time. The room for the longest is taken at once, so that no call but the maker takes
/// memory. Of its stations so many were reached, of which the last is at hand.
#[derive(Debug, Drop)]
pub struct Cursor {
    pub(crate) nodes: u32,
    pub(crate) kind: Span,
    pub(crate) stations: Vec<Station>,
    pub(crate) reached: usize,
    pub(crate) next: u32,
    pub(crate) mark: u32,
}

impl Model for Cursor {
    ghost use Rattle.std.specs.Prelude.{◌+◌, ◌≤◌, length, drop, vec_capacity};
    ghost use Rattle.rip_events.specs.Flow.{Course};
    ghost use Rattle.rip_events.specs.Reached.{last_of};

    ghost Value = { Course };

    ghost view = { λ c. record {
      nodes = c.nodes;
      kind = c.kind;
      here = last_of c.stations.items c.reached;
      ahead = drop c.reached c.stations.items;
      next = c.next;
      mark = c.mark;
    } };

    ghost invariant = { λ c. (c.nodes + c.nodes + 1 ≤ vec_capacity c.stations)
        × (c.reached ≤ length c.stations.items) };
}

impl Cursor {
    /// No flow, and the room for one in a document of so many nodes.
    pub fn make(alloc: Global, nodes: u32) -> Result<Cursor, NoMemory>
        ensures { IfOk result (λ c. c ≡ record {
          nodes = nodes;
          kind = record { start = 0; count = 0 };
          here = None;
          ahead = [];
          next = 0;
          mark = 0;
        }) }
    {
        Ok(Cursor {
            nodes,
            kind: Span { start: 0, count: 0 },
            stations: Vec::with_capacity(alloc, nodes as usize + nodes as usize + 1)?,
            reached: 0,
            next: 0,
            mark: 0,
        })
    }

    /// Begins the flow of an event of this type. Its stations are those of the document as it is now.
    pub fn begin(&mut self, dom: &Dom, kind: Span, target: u32, bubbles: bool)
        requires { length dom.now.nodes ≤ self.old.nodes }
        ensures { self.new ≡ begun dom.now kind target bubbles self.old }
    {
        self.reached = 0;
        self.next = 0;
        self.mark = 0;
        self.kind = kind;
        self.stations.clear();
        climb(&mut self.stations, dom, target, Phase::Capturing);
        self.stations.reverse();
        self.stations.push_reserved(Station {
            node: target,
            phase: Phase::AtTarget,
        });
        if bubbles {
            climb(&mut self.stations, dom, target, Phase::Bubbling);
        }
    }
}

// Puts the nodes above this one behind the stations, in this phase.
fn climb(stations: &mut Vec<Station>, dom: &Dom, target: u32, phase: Phase)
    requires { length stations.old.items + length dom.now.nodes ≤ vec_capacity stations.old }
    ensures put { stations.new.items ≡ stations.old.items ++ in_phase phase (above dom.now target) }
    ensures few { length stations.new.items ≤ length stations.old.items + length dom.now.nodes }
    ensures room { vec_capacity stations.new ≡ vec_capacity stations.old }
{
    let mut at = dom.parent(target);
    for _i in 0..dom.made() {
        match at {
            Some(n) => {
                stations.push_reserved(Station { node: n, phase });
                at = dom.parent(n);
            }
            None => return,
        }
    }
}
