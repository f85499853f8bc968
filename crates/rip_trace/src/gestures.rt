ghost use Rattle.std.specs.Prelude.{◌≡◌, ◌++◌, Option, OnOk, IfOk, IfErr, IsErrOf};
ghost use Rattle.rip_wire.specs.declared.gesture.Gesture.{Gesture as AnyGesture};
ghost use Rattle.rip_trace.specs.Gestures.{IsGestureLine, lined, AreGestures, IsGestureRefusal};

use crate::gesture_line::read_gesture;
use crate::trace::TraceRefusal;
use rip_base::List;
use rip_outer::lines;
use rip_wire::{Gesture, LineError};
use std::alloc::Global;

/// A gesture, and the number of the line that tells it, counted from 1.
#[derive(Debug, Drop)]
pub struct LinedGesture {
    pub line: u64,
    pub gesture: Gesture,
}

/// Gestures, each with its line, in their order.
pub type Gestures = List<LinedGesture>;

/// The gestures of which the text is a file.
pub fn read_gestures(alloc: Global, text: &[u8]) -> Result<Gestures, TraceRefusal>
    ensures ok { IfOk result (λ gestures. AreGestures text.now gestures) }
    ensures refused { IfErr result (IsGestureRefusal text.now) }
{
    let mut gestures = Vec::new(alloc);
    let mut number = 0u64;
    for line in lines(text) {
        number += 1;
        match add_line(alloc, &mut gestures, number, line) {
            Ok(()) => {}
            Err(LineError::Other) => return Err(TraceRefusal::Line(number)),
            Err(LineError::Memory) => return Err(TraceRefusal::Memory),
        }
    }
    Ok(List::from_vec(gestures))
}

/// Adds the gesture of a line, if it is no comment.
fn add_line(
    alloc: Global,
    gestures: &mut Vec<LinedGesture>,
    line: u64,
    bytes: &[u8],
) -> Result<(), LineError>
    ensures ok { OnOk result
        ((l : Option AnyGesture) × IsGestureLine bytes.now l
        × (gestures.new.items ≡ gestures.old.items ++ lined line l)) }
    ensures other { IsErrOf result LineError.Other
        → (l : Option AnyGesture) → ¬ IsGestureLine bytes.now l }
{
    if let Some(gesture) = read_gesture(alloc, bytes)? {
        gestures.push(LinedGesture { line, gesture })?;
    }
    Ok(())
}
