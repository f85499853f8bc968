ghost use Rattle.std.specs.Prelude.{◌≡◌, ◌+◌, ◌<◌, IfOk, length, not, slice_set, vec_capacity};
ghost use Rattle.rip_forms.specs.Kept.{filled, record_at};
ghost use Rattle.rip_forms.specs.States.{no_states, state_at, state_with, states_with};

use rip_base::{NoMemory, Span};
use std::alloc::Global;
use std::marker::Model;

/// What was set of a control: its value, of a text control; `checked`, of a checkbox; `selectedIndex`, of a select.
#[derive(Clone, Copy, Debug)]
pub struct ControlState {
    pub value: Option<Span>,
    pub checked: Option<bool>,
    pub selected: Option<i64>,
}

/// Something that is set of a control.
#[derive(Clone, Copy, Debug, PartialEq)]
pub enum FormState {
    Value(Span),
    Checked(bool),
    Selected(i64),
}

/// The states of a document's controls. The room for the states of as many nodes as may be made is taken at once, and
/// filled up to the last node of which something was set.
#[derive(Debug, Drop)]
pub struct Forms {
    room: u32,
    states: Vec<ControlState>,
    before_click: bool,
}

impl Model for Forms {
    ghost use Rattle.std.specs.Prelude.{vec_capacity};
    ghost use Rattle.rip_forms.specs.States.{States};
    ghost use Rattle.rip_forms.specs.Kept.{AreReserved, states_of};

    ghost Value = { States };

    ghost view = { λ f. states_of f.room f.states.items f.before_click };

    ghost invariant = { λ f. AreReserved f.room f.states.items (vec_capacity f.states) };
}

impl Forms {
    /// No state is set, and there is room for those of the nodes below this number.
    pub fn make(alloc: Global, nodes: u32) -> Result<Forms, NoMemory>
        ensures { IfOk result (λ forms. forms ≡ no_states nodes) }
    {
        Ok(Forms {
            room: nodes,
            states: Vec::with_capacity(alloc, nodes as usize)?,
            before_click: false,
        })
    }

    /// How many nodes have room: those below this number.
    pub fn room(&self) -> u32
        ensures { result ≡ length self.now.nodes }
    {
        self.room
    }

    /// The value of the node that was set last, if one was.
    pub fn given(&self, n: u32) -> Option<Span>
        ensures { result ≡ (state_at self.now n).value }
    {
        self.state(n).value
    }

    /// Sets this of the node. No other node's state changes.
    pub fn set(&mut self, n: u32, set: FormState)
        requires { n < length self.old.nodes }
        ensures { self.new ≡ states_with self.old n set }
    {
        let state = state_with(set, self.state(n));
        put_state(&mut self.states, n, state);
    }

    /// Puts back what `checked` of the node was before the click that was applied last, whatever was set since.
    pub fn undo_click(&mut self, n: u32)
        requires { n < length self.old.nodes }
        ensures { self.new ≡ states_with self.old n (FormState.Checked self.old.before_click) }
    {
        self.set(n, FormState::Checked(self.before_click));
    }

    // What was set of the node.
    pub(crate) fn state(&self, n: u32) -> ControlState
        ensures { result ≡ state_at self.now n }
    {
        record_at(&self.states, n)
    }

    // A checkbox is turned over by a click, which is kept to be undone.
    pub(crate) fn turn(&mut self, n: u32, was: bool)
        requires { n < length self.old.nodes }
        ensures { self.new ≡
            record (states_with self.old n (FormState.Checked (not was))) { before_click = was } }
    {
        self.set(n, FormState::Checked(!was));
        self.before_click = was;
    }
}

/// Nothing was set.
const NO_STATE: ControlState = ControlState {
    value: None,
    checked: None,
    selected: None,
};

// The record of this number; past the last nothing was set.
fn record_at(states: &Vec<ControlState>, n: u32) -> ControlState
    ensures { result ≡ record_at states.now.items n }
{
    match states.get(n as usize) {
        Some(found) => *found,
        None => NO_STATE,
    }
}

// The state in which this was set.
fn state_with(set: FormState, state: ControlState) -> ControlState
    ensures { result ≡ state_with set state }
{
    match set {
        FormState::Value(text) => ControlState {
            value: Some(text),
            ..state
        },
        FormState::Checked(is) => ControlState {
            checked: Some(is),
            ..state
        },
        FormState::Selected(place) => ControlState {
            selected: Some(place),
            ..state
        },
    }
}

// Gives the node this state, and those up to it that have none one in which nothing was set.
fn put_state(states: &mut Vec<ControlState>, n: u32, state: ControlState)
    requires { n < vec_capacity states.old }
    ensures put { states.new.items ≡ slice_set (filled (n + 1) states.old.items) n state }
    ensures room { vec_capacity states.new ≡ vec_capacity states.old }
{
    fill(states, n);
    states[n as usize] = state;
}

// Keeps a state of the node and of each one below it.
fn fill(states: &mut Vec<ControlState>, n: u32)
    requires { n < vec_capacity states.old }
    ensures filled { states.new.items ≡ filled (n + 1) states.old.items }
    ensures length { n < length states.new.items }
    ensures room { vec_capacity states.new ≡ vec_capacity states.old }
{
    for _i in states.len()..n as usize + 1 {
        states.push_reserved(NO_STATE);
    }
}
