ghost use Rattle.std.specs.Prelude.{◌≡◌, ◌<◌, ◌+◌, IfErr, IfOk, length, option_and_then};
ghost use Rattle.rip_heap.specs.World.{World, first_object};
ghost use Rattle.rip_nodes.specs.Answers.{IsAnswered};
ghost use Rattle.rip_ops.specs.Calls.{builtin_of};
ghost use Rattle.rip_host.specs.Answers.{called, event_put, event_read, event_receiver, member_read, member_written, node_read, node_receiver, node_write, ripley_read, some_or_outside};
ghost use Rattle.rip_host.specs.EventMembers.{event_member_of};
ghost use Rattle.rip_host.specs.Events.{event_of};
ghost use Rattle.rip_host.specs.FormMembers.{form_member_of};
ghost use Rattle.rip_host.specs.HostCalls.{host_call_of};
ghost use Rattle.rip_host.specs.Owners.{owner_of};
ghost use Rattle.rip_host.specs.Ripley.{ripley_member};
ghost use Rattle.rip_host.specs.Visit.{AreNodes, Fits, KeepsBrowser};

use crate::browser::Browser;
use crate::call::HostCall;
use crate::event_members::{EventMember, event_member, prevented, stopped};
use crate::events::Event;
use crate::form_members::FormMember;
use crate::owner::Owner;
use crate::ripley::ripley_member;
use rip_base::{Span, Value};
use rip_heap::{Heap, Host, HostDone};
use rip_nodes::{
    NodeMember, argument, call_node, member_named, node_of_object, outside, read_member,
    write_member,
};
use rip_ops::access::builtin_of;
use rip_values::{Builtin, FixedText};

impl Browser {
    /// Whose members the object has.
    pub(crate) fn owner_of(&self, object: u32) -> Owner
        ensures { result ≡ owner_of self.now object }
    {
        if object == Builtin::Ripley.number() {
            return Owner::Ripley;
        }
        match node_of_object(&self.dom, object) {
            Some(n) => Owner::Node(n),
            None => match self.events.get(object) {
                Some(event) => Owner::Dispatched(event),
                None => Owner::Nobody,
            },
        }
    }

    fn read_node(&mut self, heap: &mut Heap, n: u32, name: FixedText) -> HostDone
        requires fits { Fits self.old heap.old }
        ensures answer { (result, heap.new, self.new) ≡
            node_read heap.old self.old n name (form_member_of name) }
        ensures keeps { KeepsBrowser heap.old self.old result heap.new self.new }
    {
        match FormMember::of(name) {
            Some(member) => self.read_form(heap, n, member),
            None => match NodeMember::of(name) {
                Some(member) => read_member(self.alloc, heap, &self.dom, self.body, n, member),
                None => outside(),
            },
        }
    }

    fn read_event(&mut self, heap: &Heap, event: &Event, name: FixedText) -> HostDone
        requires fits { Fits self.old heap.now }
        requires nodes { AreNodes event.now }
        ensures answer { (result, heap.now, self.new) ≡
            event_read heap.now self.old event.now (event_member_of name) }
        ensures keeps { KeepsBrowser heap.now self.old result heap.now self.new }
    {
        match EventMember::of(name) {
            Some(member) => HostDone::Value(event_member(heap, event, member)),
            None => outside(),
        }
    }

    fn read_ripley(&mut self, heap: &Heap, name: FixedText) -> HostDone
        requires fits { Fits self.old heap.now }
        ensures answer { (result, heap.now, self.new) ≡
            ripley_read heap.now self.old (ripley_member name) }
        ensures keeps { KeepsBrowser heap.now self.old result heap.now self.new }
    {
        let _ = heap;
        match ripley_member(name) {
            Some(function) => HostDone::Value(Value::Object(function.number())),
            None => outside(),
        }
    }

    /// What an object has as the member of this name.
    pub(crate) fn read_object(&mut self, heap: &mut Heap, object: u32, name: Span) -> HostDone
        requires fits { Fits self.old heap.old }
        ensures answer { (result, heap.new, self.new) ≡ member_read heap.old self.old object name }
        ensures keeps { KeepsBrowser heap.old self.old result heap.new self.new }
    {
        let owner = self.owner_of(object);
        match member_named(heap, name) {
            Some(name) => match owner {
                Owner::Node(n) => self.read_node(heap, n, name),
                Owner::Dispatched(event) => self.read_event(heap, &event, name),
                Owner::Ripley => self.read_ripley(heap, name),
                Owner::Nobody => outside(),
            },
            None => outside(),
        }
    }

    fn write_node(&mut self, heap: &mut Heap, n: u32, name: FixedText, v: &Value) -> HostDone
        requires fits { Fits self.old heap.old }
        requires node { n < length self.old.dom.nodes }
        ensures answer { (result, heap.new, self.new) ≡
            node_write heap.old self.old n name (form_member_of name) v.now }
        ensures keeps { KeepsBrowser heap.old self.old result heap.new self.new }
    {
        match FormMember::of(name) {
            Some(member) => self.write_form(heap, n, member, v),
            None => match NodeMember::of(name) {
                Some(member) => {
                    write_member(self.alloc, heap, &mut self.dom, self.class, n, member, v)
                }
                None => outside(),
            },
        }
    }

    /// Writes the member of this name of an object.
    pub(crate) fn write_object(
        &mut self,
        heap: &mut Heap,
        object: u32,
        name: Span,
        v: &Value,
    ) -> HostDone
        requires fits { Fits self.old heap.old }
        ensures answer { (result, heap.new, self.new) ≡
            member_written heap.old self.old object name v.now }
        ensures keeps { KeepsBrowser heap.old self.old result heap.new self.new }
    {
        let owner = self.owner_of(object);
        match member_named(heap, name) {
            Some(name) => match owner {
                Owner::Node(n) => self.write_node(heap, n, name, v),
                Owner::Dispatched(_) | Owner::Ripley | Owner::Nobody => outside(),
            },
            None => outside(),
        }
    }

    /// What the call of a built-in function answers.
    pub(crate) fn call_builtin(
        &mut self,
        heap: &mut Heap,
        which: u32,
        this: &Value,
        args: &[Value],
    ) -> HostDone
        requires fits { Fits self.old heap.old }
        ensures answer { (result, heap.new, self.new) ≡ called heap.old self.old
            (option_and_then host_call_of (builtin_of which)) this.now args.now }
        ensures keeps { KeepsBrowser heap.old self.old result heap.new self.new }
    {
        let call = match builtin_of(which) {
            Some(function) => HostCall::of(function),
            None => None,
        };
        match call {
            Some(HostCall::OnNode(call)) => match self.node_receiver(this) {
                Ok(n) => call_node(self.alloc, heap, &mut self.dom, call, n, args),
                Err(done) => done,
            },
            Some(HostCall::AddEventListener) => match self.node_receiver(this) {
                Ok(n) => self.add_listener(
                    heap,
                    n,
                    &argument(args, 0),
                    &argument(args, 1),
                    &argument(args, 2),
                ),
                Err(done) => done,
            },
            Some(HostCall::RemoveEventListener) => match self.node_receiver(this) {
                Ok(n) => self.remove_listener(
                    heap,
                    n,
                    &argument(args, 0),
                    &argument(args, 1),
                    &argument(args, 2),
                ),
                Err(done) => done,
            },
            Some(HostCall::StopPropagation) => match self.event_receiver(heap, this) {
                Ok(event) => self.put_event(heap, stopped(&event)),
                Err(done) => done,
            },
            Some(HostCall::PreventDefault) => match self.event_receiver(heap, this) {
                Ok(event) => self.put_event(heap, prevented(heap, &event)),
                Err(done) => done,
            },
            Some(HostCall::Call) => self.ripley_call(
                heap,
                &argument(args, 0),
                &argument(args, 1),
                &argument(args, 2),
            ),
            Some(HostCall::Now) => HostDone::Value(Value::Num(self.moment)),
            Some(HostCall::Random) => self.random_call(heap, &argument(args, 0)),
            None => outside(),
        }
    }

    // The node that is the receiver, or what the call answers instead.
    fn node_receiver(&self, this: &Value) -> Result<u32, HostDone>
        ensures receiver { result ≡ node_receiver self.now this.now }
        ensures node { IfOk result (λ n. n < length self.now.dom.nodes) }
        ensures refused { (w : World) → IfErr result (λ done. IsAnswered w done w) }
    {
        match this {
            Value::Undefined | Value::Null => Err(HostDone::TypeFault),
            Value::Object(object) => match node_of_object(&self.dom, *object) {
                Some(n) => Ok(n),
                None => Err(outside()),
            },
            _ => Err(outside()),
        }
    }

    // The event that is the receiver, or what the call answers instead.
    fn event_receiver(&self, heap: &Heap, this: &Value) -> Result<Event, HostDone>
        requires { Fits self.now heap.now }
        ensures receiver { result ≡ event_receiver self.now this.now }
        ensures nodes { IfOk result AreNodes }
        ensures made { IfOk result (λ e. e.object < first_object + length heap.now.objects) }
        ensures refused { (w : World) → IfErr result (λ done. IsAnswered w done w) }
    {
        match this {
            Value::Undefined | Value::Null => Err(HostDone::TypeFault),
            Value::Object(object) => self.event_object(heap, *object),
            _ => Err(outside()),
        }
    }

    // The event that this object is.
    fn event_object(&self, heap: &Heap, object: u32) -> Result<Event, HostDone>
        requires { Fits self.now heap.now }
        ensures event { result ≡ some_or_outside (event_of self.now.events.events object) }
        ensures nodes { IfOk result AreNodes }
        ensures made { IfOk result (λ e. e.object < first_object + length heap.now.objects) }
        ensures refused { (w : World) → IfErr result (λ done. IsAnswered w done w) }
    {
        let _ = heap;
        match self.events.get(object) {
            Some(event) => Ok(event),
            None => Err(outside()),
        }
    }

    // The event is changed to this.
    fn put_event(&mut self, heap: &Heap, event: Event) -> HostDone
        requires fits { Fits self.old heap.now }
        requires nodes { AreNodes event }
        requires made { event.object < first_object + length heap.now.objects }
        ensures answer { (result, heap.now, self.new) ≡ event_put heap.now self.old event }
        ensures keeps { KeepsBrowser heap.now self.old result heap.now self.new }
    {
        let _ = heap;
        self.events.put(event);
        HostDone::Value(Value::Undefined)
    }
}

impl Host for Browser {
    ghost use Rattle.std.specs.Prelude.{false};
    ghost use Rattle.rip_host.specs.Answers.{answers};
    ghost use Rattle.rip_host.specs.Visit.{Fits};
    ghost use Rattle.rip_host.specs.Stays.{fits-stays};

    ghost fits = { λ s w. Fits s w };

    ghost answers = { λ s w request. answers s w request };

    ghost may_want_memory = { false };

    ghost stays = { λ host old new fits grows. fits-stays host old new fits grows };

    fn read(&mut self, heap: &mut Heap, object: u32, name: Span) -> HostDone {
        self.read_object(heap, object, name)
    }

    fn write(&mut self, heap: &mut Heap, object: u32, name: Span, v: Value) -> HostDone {
        self.write_object(heap, object, name, &v)
    }

    fn call(&mut self, heap: &mut Heap, which: u32, this: Value, args: &[Value]) -> HostDone {
        self.call_builtin(heap, which, &this, args)
    }
}
