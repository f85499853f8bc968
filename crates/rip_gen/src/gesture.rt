ghost use Rattle.std.specs.Prelude.{◌≡◌, ◌++◌, ◌<◌, decimal, IfOk};
ghost use Rattle.rip_gen.specs.Plans.{input, change, click, gesture_drawn, gestures_drawn};

use crate::draws::Draws;
use rip_base::{EventKind, NoMemory, Report, Units, Writer};
use rip_wire::Gesture;
use std::alloc::Global;

/// So many gestures, drawn one after the other.
#[tactic(auto, using(crate::proofs::PlanLemmas::drawing_none, crate::proofs::PlanLemmas::drawing_more, crate::proofs::PlanLemmas::drawing_all))]
pub(crate) fn next_gestures(
    alloc: Global,
    draws: Draws,
    count: u32,
) -> Result<Vec<Gesture>, NoMemory>
    ensures { IfOk result (λ gestures. gestures.items ≡ gestures_drawn count draws) }
{
    let mut draws = draws;
    let mut gestures = Vec::new(alloc);
    for _ in 0..count {
        gestures.push(next_gesture(alloc, &mut draws)?)?;
    }
    Ok(gestures)
}

/// The next gesture: its kind is drawn, and then what it enters.
fn next_gesture(alloc: Global, draws: &mut Draws) -> Result<Gesture, NoMemory>
    ensures { IfOk result (λ gesture. (gesture, draws.new) ≡ gesture_drawn draws.old) }
{
    match draws.below(5) {
        0 => input(alloc, 8, b"", draws.below(1_000)),
        1 => Ok(change(9, draws.below(2))),
        2 => Ok(click(14)),
        3 => input(alloc, 7, b"n", draws.below(100)),
        _ => Ok(Gesture::Flush),
    }
}

/// A text that is entered: what stands before a number, and the number.
fn input(alloc: Global, node: u32, before: &[u8], number: u32) -> Result<Gesture, NoMemory>
    ensures { IfOk result (λ gesture. gesture ≡ input node (before.now ++ decimal number)) }
{
    Ok(Gesture::Event(Report {
        kind: EventKind::Input,
        node,
        text: Some(text_of(alloc, before, number)?),
        place: None,
    }))
}

/// ASCII text and a number behind it.
fn text_of(alloc: Global, before: &[u8], number: u32) -> Result<Units, NoMemory>
    ensures { IfOk result (λ text. text ≡ before.now ++ decimal number) }
{
    let mut text = Writer::new(alloc);
    text.text(before)?;
    text.number(u64::from(number))?;
    let mut units = Vec::new(alloc);
    for byte in text.as_slice() {
        units.push(u16::from(*byte))?;
    }
    Ok(Units::from_vec(units))
}

fn change(node: u32, place: u32) -> Gesture
    ensures { result ≡ change node place }
{
    Gesture::Event(Report {
        kind: EventKind::Change,
        node,
        text: None,
        place: Some(place),
    })
}

fn click(node: u32) -> Gesture
    ensures { result ≡ click node }
{
    Gesture::Event(Report {
        kind: EventKind::Click,
        node,
        text: None,
        place: None,
    })
}
