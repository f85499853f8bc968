ghost use Rattle.std.specs.Prelude.{◌≡◌, ◌<◌, None, length};
ghost use Rattle.rip_heap.specs.Conversions.{text_fault};
ghost use Rattle.rip_ops.specs.Calls.{builtin_of};
ghost use Rattle.rip_host.specs.Listening.{added_by, handler_of, ignored, is_built_in_function, is_function_object, is_number, is_second, is_spent, left_out, listener_added, listener_removed, register, removed_by, unregister};
ghost use Rattle.rip_host.specs.Visit.{Fits, KeepsBrowser};

use crate::browser::Browser;
use rip_base::{Limit, Refused, Value, text_of_whole};
use rip_events::Listener;
use rip_heap::{Heap, HostDone, to_boolean};
use rip_nodes::{are_past, cost_of_text, make_text, outside, text_arg, text_fault};
use rip_ops::access::builtin_of;
use rip_values::Builtin;

/// What a value is as a handler of events.
#[derive(Clone, Copy, Debug, PartialEq, Eq)]
pub enum Handler {
    /// Null, with which nothing is registered.
    Ignored,
    /// A function of the script, or one that is built in.
    Function(u32),
    /// All else.
    Other,
}

fn is_built_in_function(b: Option<Builtin>) -> bool
    ensures { result ≡ is_built_in_function b }
{
    match b {
        Some(b) => b.is_function(),
        None => false,
    }
}

/// Whether the object is a function, of the script or built in.
pub(crate) fn is_function_object(heap: &Heap, n: u32) -> bool
    ensures { result ≡ is_function_object heap.now n (builtin_of n) }
{
    heap.function(n).is_some() || is_built_in_function(builtin_of(n))
}

/// What a value is as a handler.
pub(crate) fn handler_of(heap: &Heap, v: &Value) -> Handler
    ensures { result ≡ handler_of heap.now v.now }
{
    match v {
        Value::Null => Handler::Ignored,
        Value::Object(n) => {
            if is_function_object(heap, *n) {
                Handler::Function(*n)
            } else {
                Handler::Other
            }
        }
        _ => Handler::Other,
    }
}

fn is_number(v: &Value) -> bool
    ensures { result ≡ is_number v.now }
{
    matches!(v, Value::Num(_))
}

impl Browser {
    /// addEventListener on this node.
    pub(crate) fn add_listener(
        &mut self,
        heap: &mut Heap,
        node: u32,
        kind: &Value,
        f: &Value,
        capture: &Value,
    ) -> HostDone
        requires fits { Fits self.old heap.old }
        requires node { node < length self.old.dom.nodes }
        ensures answer { (result, heap.new, self.new) ≡
            listener_added heap.old self.old node kind.now f.now capture.now }
        ensures keeps { KeepsBrowser heap.old self.old result heap.new self.new }
    {
        let capture = to_boolean(heap, *capture);
        match text_fault(heap, kind) {
            Some(fault) => return HostDone::Fault(fault),
            None => {}
        }
        match handler_of(heap, f) {
            Handler::Ignored => self.ignore(heap, kind),
            Handler::Function(f) => self.register(heap, node, kind, f, capture),
            Handler::Other => self.leave_out(heap, kind),
        }
    }

    /// removeEventListener on this node.
    pub(crate) fn remove_listener(
        &mut self,
        heap: &mut Heap,
        node: u32,
        kind: &Value,
        f: &Value,
        capture: &Value,
    ) -> HostDone
        requires fits { Fits self.old heap.old }
        ensures answer { (result, heap.new, self.new) ≡
            listener_removed heap.old self.old node kind.now f.now capture.now }
        ensures keeps { KeepsBrowser heap.old self.old result heap.new self.new }
    {
        let capture = to_boolean(heap, *capture);
        match text_fault(heap, kind) {
            Some(fault) => return HostDone::Fault(fault),
            None => {}
        }
        match handler_of(heap, f) {
            Handler::Ignored => self.ignore(heap, kind),
            Handler::Function(f) => self.unregister(heap, node, kind, f, capture),
            Handler::Other => self.leave_out(heap, kind),
        }
    }

    // The text of the type is made, and nothing more is done.
    fn ignore(&mut self, heap: &mut Heap, kind: &Value) -> HostDone
        requires fits { Fits self.old heap.old }
        requires textual { text_fault heap.old.pool kind.now ≡ None }
        ensures answer { (result, heap.new, self.new) ≡ ignored heap.old self.old kind.now }
        ensures keeps { KeepsBrowser heap.old self.old result heap.new self.new }
    {
        match text_arg(self.alloc, heap, false, kind) {
            Ok(_) => HostDone::Value(Value::Undefined),
            Err(done) => done,
        }
    }

    // The text of the type could be made, but the handler is outside the profile.
    fn leave_out(&self, heap: &Heap, kind: &Value) -> HostDone
        requires fits { Fits self.now heap.now }
        ensures answer { (result, heap.now, self.now) ≡ left_out heap.now self.now kind.now }
        ensures keeps { KeepsBrowser heap.now self.now result heap.now self.now }
    {
        if are_past(heap, cost_of_text(kind)) {
            return HostDone::Limit(Limit::Units);
        }
        outside()
    }

    // Whether the type is a number, and a listener with its text stands on the node, of this function and phase.
    fn is_second(&self, heap: &Heap, node: u32, kind: &Value, function: u32, capture: bool) -> bool
        ensures { result ≡ is_second heap.now self.now node kind.now function capture }
    {
        match kind {
            Value::Num(number) => {
                let mut room = [0; 17];
                let count = text_of_whole(*number, &mut room);
                self.listeners
                    .has(heap.pool(), node, &room[..count], function, capture)
            }
            _ => false,
        }
    }

    fn register(
        &mut self,
        heap: &mut Heap,
        node: u32,
        kind: &Value,
        function: u32,
        capture: bool,
    ) -> HostDone
        requires fits { Fits self.old heap.old }
        requires textual { text_fault heap.old.pool kind.now ≡ None }
        requires node { node < length self.old.dom.nodes }
        ensures answer { (result, heap.new, self.new) ≡
            register heap.old self.old node kind.now function capture }
        ensures keeps { KeepsBrowser heap.old self.old result heap.new self.new }
    {
        if self.is_second(heap, node, kind, function, capture) {
            return self.ignore(heap, kind);
        }
        if are_past(heap, cost_of_text(kind)) {
            return HostDone::Limit(Limit::Units);
        }
        let free = heap.free_cells();
        let _made = self.dom.made();
        if is_number(kind) && free == 0 {
            return HostDone::Limit(Limit::Cells);
        }
        let listener = Listener {
            node,
            kind: make_text(self.alloc, heap, kind),
            function,
            capture,
        };
        match self.listeners.add(heap, listener) {
            Ok(()) => HostDone::Value(Value::Undefined),
            Err(Refused::Limit(limit)) => HostDone::Limit(limit),
            Err(Refused::Memory) => HostDone::Memory,
        }
    }

    fn unregister(
        &mut self,
        heap: &mut Heap,
        node: u32,
        kind: &Value,
        function: u32,
        capture: bool,
    ) -> HostDone
        requires fits { Fits self.old heap.old }
        requires textual { text_fault heap.old.pool kind.now ≡ None }
        ensures answer { (result, heap.new, self.new) ≡
            unregister heap.old self.old node kind.now function capture }
        ensures keeps { KeepsBrowser heap.old self.old result heap.new self.new }
    {
        match text_arg(self.alloc, heap, false, kind) {
            Ok(kind) => {
                let listener = Listener {
                    node,
                    kind,
                    function,
                    capture,
                };
                self.listeners.remove(heap, listener);
                HostDone::Value(Value::Undefined)
            }
            Err(done) => done,
        }
    }
}
