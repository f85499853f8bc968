ghost use Rattle.std.specs.Prelude.{◌≡◌, ◌+◌, ◌<◌, ◌≤◌, ◌↔◌, [], IfOk, IfSome, IsTrue, is_some, length, slice_set, vec_capacity};
ghost use Rattle.rip_heap.specs.Growth.{Grows};
ghost use Rattle.rip_events.specs.Listed.{fits_typed, found, first_between, first_typed, typed, registered, same_as, with_listener, without_listener, listener_at, stands_at, HasRoom, Registers};
ghost use Rattle.rip_events.specs.Chained.{ends_at, ends_with, link_at, with_link, first_on, AreSameEnds};

use crate::listener::{Listener, Wanted, is_typed, same_as};
use rip_base::{Limit, NoMemory, Refused, Span};
use rip_heap::Heap;
use rip_values::Pool;
use std::alloc::Global;
use std::marker::Model;

/// What a listener costs, in cells.
const COST_OF_LISTENER: u32 = 1;

/// The first and the last listener of a node.
#[derive(Clone, Copy, Debug)]
pub(crate) struct Ends {
    pub first: Option<u32>,
    pub last: Option<u32>,
}

/// The listeners of a session, numbered in the order of registration. Those of one node hang together. The room for
/// all is taken at once, so that no call but the maker takes memory.
#[derive(Debug, Drop)]
pub struct Listeners {
    limit: u32,
    nodes: u32,
    registered: Vec<Listener>,
    standing: Vec<bool>,
    links: Vec<Option<u32>>,
    ends: Vec<Ends>,
}

impl Model for Listeners {
    ghost use Rattle.std.specs.Prelude.{vec_capacity};
    ghost use Rattle.rip_events.specs.Listed.{Listed};
    ghost use Rattle.rip_events.specs.Chained.{IsChained, HasRooms};

    ghost Value = { Listed };

    ghost view = { λ l. record {
      limit = l.limit;
      nodes = l.nodes;
      registered = l.registered.items;
      standing = l.standing.items;
    } };

    ghost invariant = { λ l.
        IsChained l.limit l.registered.items l.standing.items l.links.items l.ends.items
        × HasRooms l.limit l.nodes (vec_capacity l.registered) (vec_capacity l.standing)
        (vec_capacity l.links) (vec_capacity l.ends) };
}

impl Listeners {
    /// No listener yet, and room for so many, on nodes below the bound.
    pub fn make(alloc: Global, limit: u32, nodes: u32) -> Result<Listeners, NoMemory>
        ensures { IfOk result (λ l. l ≡
            record { limit = limit; nodes = nodes; registered = []; standing = [] }) }
    {
        Ok(Listeners {
            limit,
            nodes,
            registered: Vec::with_capacity(alloc, limit as usize)?,
            standing: Vec::with_capacity(alloc, limit as usize)?,
            links: Vec::with_capacity(alloc, limit as usize)?,
            ends: Vec::with_capacity(alloc, nodes as usize)?,
        })
    }

    /// How many listeners were ever registered.
    pub fn count(&self) -> u32
        ensures registered { result ≡ length self.now.registered }
        ensures standing { result ≡ length self.now.standing }
    {
        self.registered.len() as u32
    }

    /// The function of the listener of this number.
    pub fn function(&self, n: u32) -> u32
        ensures { result ≡ (listener_at self.now.registered n).function }
    {
        self.listener(n).function
    }

    /// The first listener that stands and is wanted, from the one number up to the other, without this one. It takes
    /// time in proportion to the listeners of the node where `from` is 0 or comes behind one of them.
    pub fn first_between(&self, pool: &Pool, wanted: Wanted, from: u32, until: u32) -> Option<u32>
        ensures first { result ≡ first_between pool.now wanted from until self.now }
        ensures within { IfSome result (λ n. n < length self.now.registered) }
    {
        self.first_typed(pool, wanted, pool.get(wanted.kind), from, until)
    }

    /// Whether a listener of this node, function and phase stands, of a type with this text, which need be in no pool.
    /// It takes time in proportion to the listeners of the node.
    pub fn has(&self, pool: &Pool, node: u32, text: &[u16], function: u32, capture: bool) -> bool
        ensures { result ≡ is_some (typed pool.now node text.now function capture self.now) }
    {
        let wanted = Wanted {
            node,
            kind: Span { start: 0, count: 0 },
            function: Some(function),
            capture,
        };
        self.first_typed(pool, wanted, text, 0, self.count())
            .is_some()
    }

    // The first listener that stands and is wanted, and is of a type with this text.
    fn first_typed(
        &self,
        pool: &Pool,
        wanted: Wanted,
        text: &[u16],
        from: u32,
        until: u32,
    ) -> Option<u32>
        ensures first { result ≡ first_typed pool.now wanted text.now from until self.now }
        ensures within { IfSome result (λ n. n < length self.now.registered) }
    {
        let mut at = self.first_on(wanted.node, from);
        for _i in 0..self.count() {
            match at {
                Some(n) => {
                    if n >= until {
                        return None;
                    }
                    if self.fits(pool, wanted, text, n) {
                        return Some(n);
                    }
                    at = self.behind(n);
                }
                None => return None,
            }
        }
        None
    }

    fn fits(&self, pool: &Pool, wanted: Wanted, text: &[u16], n: u32) -> bool
        ensures { result ≡ fits_typed pool.now wanted text.now self.now n }
    {
        self.stands(n) && is_typed(pool, wanted, text, self.listener(n))
    }

    /// Registers the listener at its charge, behind all others. Where one of the same node, text of type, function
    /// and phase stands, nothing is done and nothing charged.
    pub fn add(&mut self, heap: &mut Heap, listener: Listener) -> Result<(), Refused>
        ensures registers { Registers
            (registered (found heap.old.pool (same_as listener) self.old) listener self.old heap.old)
            listener.node self.old heap.old result self.new heap.new }
        ensures grows { Grows heap.old heap.new }
    {
        if self.found(heap.pool(), listener).is_some() {
            return Ok(());
        }
        if heap.free_cells() < COST_OF_LISTENER {
            return Err(Refused::Limit(Limit::Cells));
        }
        if !self.has_room(listener.node) {
            return Err(Refused::Memory);
        }
        match heap.charge(COST_OF_LISTENER) {
            Ok(()) => {
                self.push(listener);
                Ok(())
            }
            Err(limit) => Err(Refused::Limit(limit)),
        }
    }

    /// Takes the standing listener of the same node, text of type, function and phase out, if there is one. Nothing
    /// is given back, and its number is not used again.
    pub fn remove(&mut self, heap: &Heap, listener: Listener)
        ensures { self.new ≡ without_listener
            (found heap.now.pool (same_as listener) self.old) self.old }
    {
        match self.found(heap.pool(), listener) {
            Some(n) => {
                if (n as usize) < self.standing.len() {
                    self.standing[n as usize] = false;
                }
            }
            None => {}
        }
    }

    fn found(&self, pool: &Pool, listener: Listener) -> Option<u32>
        ensures { result ≡ found pool.now (same_as listener) self.now }
    {
        self.first_between(pool, same_as(listener), 0, self.count())
    }

    fn has_room(&self, node: u32) -> bool
        ensures { IsTrue result ↔ HasRoom self.now node }
    {
        self.count() < self.limit && node < self.nodes
    }

    fn push(&mut self, listener: Listener)
        requires { HasRoom self.old listener.node }
        ensures { self.new ≡ with_listener listener self.old }
    {
        let count = self.count();
        let last = ends_at(&self.ends, listener.node).last;
        reach(&mut self.ends, listener.node);
        put_behind(&mut self.ends, listener.node, count);
        set_link(&mut self.links, last, count);
        self.links.push_reserved(None);
        self.registered.push_reserved(listener);
        self.standing.push_reserved(true);
    }

    // The first listener of the node from this number on.
    fn first_on(&self, node: u32, from: u32) -> Option<u32>
        ensures { result ≡ first_on self.now.registered node from }
    {
        if from == 0 {
            return self.first(node);
        }
        let count = self.count();
        if from <= count && self.listener(from - 1).node == node {
            return self.behind(from - 1);
        }
        for n in from..count {
            if self.listener(n).node == node {
                return Some(n);
            }
        }
        None
    }

    // The first listener of the node.
    fn first(&self, node: u32) -> Option<u32>
        ensures { result ≡ first_on self.now.registered node 0 }
    {
        ends_at(&self.ends, node).first
    }

    // The next listener of the same node.
    fn behind(&self, n: u32) -> Option<u32>
        requires { n < length self.now.registered }
        ensures { result ≡
            first_on self.now.registered (listener_at self.now.registered n).node (n + 1) }
    {
        link_at(&self.links, n)
    }

    fn listener(&self, n: u32) -> Listener
        ensures { result ≡ listener_at self.now.registered n }
    {
        match self.registered.get(n as usize) {
            Some(found) => *found,
            None => Listener {
                node: 0,
                kind: Span { start: 0, count: 0 },
                function: 0,
                capture: false,
            },
        }
    }

    fn stands(&self, n: u32) -> bool
        ensures { result ≡ stands_at self.now.standing n }
    {
        match self.standing.get(n as usize) {
            Some(stands) => *stands,
            None => false,
        }
    }
}

fn ends_at(ends: &Vec<Ends>, node: u32) -> Ends
    ensures { result ≡ ends_at ends.now.items node }
{
    match ends.get(node as usize) {
        Some(found) => *found,
        None => Ends {
            first: None,
            last: None,
        },
    }
}

fn link_at(links: &Vec<Option<u32>>, n: u32) -> Option<u32>
    ensures { result ≡ link_at links.now.items n }
{
    match links.get(n as usize) {
        Some(found) => *found,
        None => None,
    }
}

// Makes room for the ends of this node.
fn reach(ends: &mut Vec<Ends>, node: u32)
    requires { node < vec_capacity ends.old }
    ensures reached { node < length ends.new.items }
    ensures same { AreSameEnds ends.old.items ends.new.items }
    ensures room { vec_capacity ends.new ≡ vec_capacity ends.old }
{
    for _i in ends.len()..node as usize + 1 {
        ends.push_reserved(Ends {
            first: None,
            last: None,
        });
    }
}

// Puts this number behind the others of the node.
fn put_behind(ends: &mut Vec<Ends>, node: u32, n: u32)
    requires { node < length ends.old.items }
    ensures put { ends.new.items ≡
        slice_set ends.old.items node (ends_with (ends_at ends.old.items node) n) }
    ensures room { vec_capacity ends.new ≡ vec_capacity ends.old }
{
    let found = ends_at(ends, node);
    ends[node as usize] = ends_with(found, n);
}

fn ends_with(ends: Ends, n: u32) -> Ends
    ensures { result ≡ ends_with ends n }
{
    match ends.first {
        Some(_) => Ends {
            last: Some(n),
            ..ends
        },
        None => Ends {
            first: Some(n),
            last: Some(n),
        },
    }
}

fn set_link(links: &mut Vec<Option<u32>>, last: Option<u32>, next: u32)
    requires { IfSome last (λ l. l < length links.old.items) }
    ensures set { links.new.items ≡ with_link links.old.items last next }
    ensures room { vec_capacity links.new ≡ vec_capacity links.old }
{
    match last {
        Some(n) => links[n as usize] = Some(next),
        None => {}
    }
}
