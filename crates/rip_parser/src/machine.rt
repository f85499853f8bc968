//! The machine that reads scripts: it takes one lexeme at a time, and keeps the open forms on a stack.

ghost use Rattle.std.specs.Prelude.{◌≡◌, ◌+◌, ◌∷◌, [], IfOk, OnOk, MatchOption, Some, None, true};
ghost use Rattle.rip_automaton.specs.Frames.{top_bars, top_floor};
ghost use Rattle.rip_automaton.specs.States.{At};
ghost use Rattle.rip_grammar.specs.Events.{node_at, node_behind};
ghost use Rattle.rip_parser.specs.Running.{Course, Takes, first, others};

use crate::grammar::{bars_in, floor};
use crate::levels::ASSIGNMENT;
use rip_automaton::{Frame, Mode};
use rip_base::NoMemory;
use rip_grammar::{Event, Head};
use std::alloc::Global;
use std::marker::Model;

/// The machine: what it wants of the next lexeme, the open forms, and what has been told.
#[derive(Debug, Drop)]
pub(crate) struct Machine {
    pub(crate) mode: Mode,
    pub(crate) stack: Vec<Frame>,
    pub(crate) events: Vec<Event>,
}

impl Model for Machine {
    ghost use Rattle.std.specs.Prelude.{reverse};
    ghost use Rattle.rip_parser.specs.Running.{Course};

    ghost Value = { Course };

    ghost view = { λ m. record { mode = m.mode; stack = reverse m.stack.items; events = reverse m.events.items } };
}

/// The sum of two counts. More than 32 bits can count are refused as want of memory.
pub(crate) fn sum_of_counts(first: u32, second: u32) -> Result<u32, NoMemory>
    ensures { IfOk result (λ sum. sum ≡ first + second) }
{
    match first.checked_add(second) {
        Some(sum) => Ok(sum),
        None => Err(NoMemory),
    }
}

/// A count of one more. More than 32 bits can count are refused as want of memory.
pub(crate) fn one_more(count: u32) -> Result<u32, NoMemory>
    ensures { IfOk result (λ more. more ≡ count + 1) }
{
    sum_of_counts(count, 1)
}

impl Machine {
    /// Wants a statement of a script, of which nothing is told yet.
    pub(crate) fn new(alloc: Global) -> Result<Machine, NoMemory>
        ensures { IfOk result
            (λ machine. machine ≡ record
            { mode = Mode.Statement; stack = Frame.Script ∷ []; events = [] }) }
    {
        let mut machine = Machine {
            mode: Mode::Statement,
            stack: Vec::new(alloc),
            events: Vec::new(alloc),
        };
        machine.push(Frame::Script)?;
        Ok(machine)
    }

    /// Opens a form.
    pub(crate) fn push(&mut self, frame: Frame) -> Result<(), NoMemory>
        ensures { OnOk result (self.new ≡ record self.old { stack = frame ∷ self.old.stack }) }
    {
        self.stack.push(frame)?;
        Ok(())
    }

    /// Takes the latest of the open forms from the stack.
    pub(crate) fn pop(&mut self) -> Option<Frame>
        ensures { MatchOption result (self.old.stack ≡ [])
            (λ frame. self.old ≡ record self.new { stack = frame ∷ self.new.stack }) }
    {
        self.stack.pop()
    }

    /// The latest of the open forms.
    pub(crate) fn top(&self) -> Option<Frame>
        ensures { result ≡ first self.now.stack }
    {
        let count = self.stack.len();
        if count == 0 {
            return None;
        }
        Some(self.stack[count - 1])
    }

    /// How tightly an expression holds at least where one is wanted.
    pub(crate) fn top_floor(&self) -> u32
        ensures { result ≡ top_floor self.now.stack }
    {
        match self.top() {
            Some(frame) => floor(frame),
            None => ASSIGNMENT,
        }
    }

    /// Whether no bare `in` is taken there.
    pub(crate) fn top_bars(&self) -> bool
        ensures { result ≡ top_bars self.now.stack }
    {
        match self.top() {
            Some(frame) => bars_in(frame),
            None => false,
        }
    }

    /// Tells what has ended.
    pub(crate) fn tell(&mut self, event: Event) -> Result<(), NoMemory>
        ensures { OnOk result (self.new ≡ record self.old { events = event ∷ self.old.events }) }
    {
        self.events.push(event)?;
        Ok(())
    }

    /// Goes on to want this.
    pub(crate) fn want(&mut self, mode: Mode) -> Result<bool, NoMemory>
        ensures { IfOk result
            (λ taken. Takes taken self.new (Some (At mode self.old.stack self.old.events))) }
    {
        self.mode = mode;
        Ok(true)
    }

    /// Opens a form, and goes on to want this.
    pub(crate) fn open(&mut self, frame: Frame, mode: Mode) -> Result<bool, NoMemory>
        ensures { IfOk result
            (λ taken. Takes taken self.new
            (Some (At mode (frame ∷ self.old.stack) self.old.events))) }
    {
        self.push(frame)?;
        self.want(mode)
    }

    /// Tells what has ended, and goes on to want this.
    pub(crate) fn end(&mut self, event: Event, mode: Mode) -> Result<bool, NoMemory>
        ensures { IfOk result
            (λ taken. Takes taken self.new
            (Some (At mode self.old.stack (event ∷ self.old.events)))) }
    {
        self.tell(event)?;
        self.want(mode)
    }
}

/// What is told of a node at a place of its own.
pub(crate) fn node_at(place: u32, head: Head, count: u32) -> Event
    ensures { result ≡ node_at place head count }
{
    Event::Node {
        place: Some(place),
        head,
        count,
    }
}

/// What is told of a node that begins with its first part.
pub(crate) fn node_behind(head: Head, count: u32) -> Event
    ensures { result ≡ node_behind head count }
{
    Event::Node {
        place: None,
        head,
        count,
    }
}
