ghost use Rattle.std.specs.Prelude.{◌≡◌, ◌↔◌, ◌<◌, ◌≤◌, ◌-◌, ◌∷◌, ◌++◌, List, [], length, take, max, IsOk, IfOk, IfErr, OnOk, OnErr, MatchOption};
ghost use Rattle.rip_base.specs.declared.value.Value.{Value as ScriptValue};
ghost use Rattle.rip_eval_rows.specs.Stack.{Frames, Open, empty_frames, framed, without_last, last_values, count_of_values};

use crate::frame::Frame;
use rip_base::{Limit, NoMemory, Value};
use std::alloc::Global;
use std::marker::Model;

/// A frame, and how many values are beside it.
#[derive(Clone, Copy, Debug)]
pub(crate) struct Entry {
    pub frame: Frame,
    pub values: u32,
}

/// The open frames of a run, the outermost first, each with the values beside it: those of the arguments so far. The
/// frames and the values lie in two rows whose room is taken before, so that nothing here takes memory later.
#[derive(Debug, Drop)]
pub struct Stack {
    entries: Vec<Entry>,
    values: Vec<Value>,
    most: u32,
    room: u32,
}

impl Model for Stack {
    ghost use Rattle.std.specs.Prelude.{vec_capacity};
    ghost use Rattle.rip_eval_rows.specs.Stack.{Frames};
    ghost use Rattle.rip_eval_rows.specs.Joining.{joined, IsStack};

    ghost Value = { Frames };

    ghost view = { λ s. record { most = s.most; room = s.room; frames = joined s.entries.items s.values.items } };

    ghost invariant = { λ s. IsStack s.entries.items s.values.items s.most s.room (vec_capacity s.entries) (vec_capacity s.values) };
}

impl Stack {
    /// A stack with room for so many frames, and for no values yet.
    pub fn make(alloc: Global, depth: u32) -> Result<Stack, NoMemory>
        ensures { IfOk result (λ stack. stack ≡ empty_frames depth 0) }
    {
        Ok(Stack {
            entries: Vec::with_capacity(alloc, depth as usize)?,
            values: Vec::new(alloc),
            most: depth,
            room: 0,
        })
    }

    /// Takes the room for so many values in all, where there is less. The frames stay.
    pub fn reserve(&mut self, values: u32) -> Result<(), NoMemory>
        ensures ok { OnOk result (self.new ≡ record self.old { room = max self.old.room values }) }
        ensures err { OnErr result (self.new ≡ self.old) }
    {
        if values > self.room {
            self.values
                .reserve_exact(values as usize - self.values.len())?;
            self.room = values;
        }
        Ok(())
    }

    /// How many values have room in all.
    pub fn room(&self) -> u32
        ensures { result ≡ self.now.room }
    {
        self.room
    }

    /// How many values are beside the frames, at most as many as have room.
    pub fn count(&self) -> u32
        ensures count { result ≡ count_of_values self.now.frames }
        ensures within { result ≤ self.now.room }
    {
        self.values.len() as u32
    }

    /// How many frames are open, at most as many as have room.
    pub fn depth(&self) -> u32
        ensures count { result ≡ length self.now.frames }
        ensures within { result ≤ self.now.most }
    {
        self.entries.len() as u32
    }

    /// The innermost frame.
    pub fn top(&self) -> Option<&Frame>
        ensures { MatchOption result (self.now.frames ≡ [])
            (λ frame. self.now.frames ≡ without_last self.now.frames
            ++ framed frame.now (last_values self.now.frames) ∷ []) }
    {
        match last_of(&self.entries) {
            Some(entry) => Some(&entry.frame),
            None => None,
        }
    }

    /// The values beside the innermost frame.
    pub fn values(&self) -> &[Value]
        ensures { result.now ≡ last_values self.now.frames }
    {
        match last_of(&self.entries) {
            Some(entry) => &self.values[self.values.len() - entry.values as usize..],
            None => &[],
        }
    }

    /// Puts a frame with no values behind the others. A stack that is full stays as it is.
    pub fn push(&mut self, frame: Frame) -> Result<(), Limit>
        ensures room { IsOk result ↔ (length self.old.frames < self.old.most) }
        ensures depth { IfErr result (λ limit. limit ≡ Limit.Depth) }
        ensures pushed { OnOk result (self.new ≡ record self.old
            { frames = self.old.frames ++ framed frame [] ∷ [] }) }
        ensures kept { OnErr result (self.new ≡ self.old) }
    {
        if self.entries.len() >= self.most as usize {
            return Err(Limit::Depth);
        }
        self.entries.push_reserved(Entry { frame, values: 0 });
        Ok(())
    }

    /// Takes the innermost frame and its values away.
    pub fn pop(&mut self) -> Option<Frame>
        ensures frame { MatchOption result (self.old.frames ≡ [])
            (λ frame. self.old.frames ≡ without_last self.old.frames
            ++ framed frame (last_values self.old.frames) ∷ []) }
        ensures popped { self.new ≡ record self.old { frames = without_last self.old.frames } }
    {
        let frame = self.top().copied();
        self.close();
        frame
    }

    /// The same, where nobody asks for the frame. Where there is none, nothing is done.
    pub fn close(&mut self)
        ensures { self.new ≡ record self.old { frames = without_last self.old.frames } }
    {
        if let Some(entry) = last_of(&self.entries) {
            let values = self.values.len() - entry.values as usize;
            self.values.truncate(values);
            self.entries.truncate(self.entries.len() - 1);
        }
    }

    /// Puts a frame with no values in place of the innermost one and its values. Where there is none, nothing is done.
    pub fn replace(&mut self, frame: &Frame)
        ensures replaced { 0 < length self.old.frames → self.new
            ≡ record self.old {
              frames = without_last self.old.frames ++ framed frame.now []
                  ∷ [];
            } }
        ensures none { self.old.frames ≡ [] → self.new ≡ self.old }
    {
        if let Some(last) = self.entries.last_mut() {
            let values = self.values.len() - last.values as usize;
            self.values.truncate(values);
            last.frame = *frame;
            last.values = 0;
        }
    }

    /// Puts a frame in place of the innermost one, and a value behind the values beside it. Where there is none, or
    /// where no more values have room, nothing is done.
    pub fn keep(&mut self, frame: &Frame, value: &Value) -> Result<(), NoMemory>
        ensures room { IsOk result ↔ ((0 < length self.old.frames)
            × (count_of_values self.old.frames < self.old.room)) }
        ensures kept { OnOk result (self.new ≡ record self.old {
          frames = without_last self.old.frames ++ framed frame.now
              (last_values self.old.frames ++ value.now ∷ []) ∷ [];
        }) }
        ensures unchanged { OnErr result (self.new ≡ self.old) }
    {
        if self.values.len() >= self.room as usize {
            return Err(NoMemory);
        }
        match self.entries.last_mut() {
            Some(entry) => {
                self.values.push_reserved(*value);
                entry.frame = *frame;
                entry.values += 1;
                Ok(())
            },
            None => Err(NoMemory),
        }
    }

    /// Takes the last value beside the innermost frame away. Where there is none, nothing is said.
    pub fn take_back(&mut self, frame: &Frame)
        ensures { (os : List Open) (values : List ScriptValue) (v : ScriptValue)
            → self.old.frames ≡ os ++ framed frame.now (values ++ v ∷ []) ∷ []
            → self.new ≡ record self.old { frames = os ++ framed frame.now values ∷ [] } }
    {
        if let Some(entry) = self.entries.last_mut() {
            if entry.values > 0 {
                entry.frame = *frame;
                entry.values -= 1;
                self.values.truncate(self.values.len() - 1);
            }
        }
    }

    /// Takes all frames and values away.
    pub fn clear(&mut self)
        ensures { self.new ≡ record self.old { frames = [] } }
    {
        self.entries.clear();
        self.values.clear();
    }
}

// The last entry.
fn last_of(entries: &Vec<Entry>) -> Option<&Entry>
    ensures { MatchOption result (entries.now.items ≡ [])
        (λ e. entries.now.items ≡ take (length entries.now.items - 1) entries.now.items ++ e.now
        ∷ []) }
{
    entries.last()
}
