ghost use Rattle.std.specs.Prelude.{◌≡◌, ◌<◌, ◌≤◌, ◌++◌, IfOk, IfSome, OnOk, length};
ghost use Rattle.std.specs.Char.Escape.{encode_utf16};
ghost use Rattle.rip_markup.specs.Steps.{decoded, bad_reference};
ghost use Rattle.rip_markup.specs.Texts.{HasItems, StandsForItems};

use crate::reference::{TextStep, first_step};
use rip_base::{List, NoMemory, Units};
use std::alloc::Global;

/// What a text with references stands for.
#[derive(Debug, Drop)]
pub(crate) struct Decoded {
    /// The units, up to a reference that is none.
    pub units: Units,
    /// The place of the first reference that is none, counted from the text's first unit.
    pub bad: Option<usize>,
}

/// What the text stands for (HTML 13.1.4).
pub(crate) fn decode(alloc: Global, text: &[u16]) -> Result<Decoded, NoMemory>
    ensures units { IfOk result (λ d. d.units ≡ decoded 0 text.now) }
    ensures bad { IfOk result (λ d. d.bad ≡ bad_reference 0 0 text.now) }
    ensures bound { IfOk result (λ d. IfSome d.bad (λ place. place ≤ length text.now)) }
{
    let mut out = Vec::with_capacity(alloc, text.len())?;
    let mut rest = text;
    let mut place: usize = 0;
    'text: loop {
        match first_step(rest) {
            TextStep::End => {
                return Ok(Decoded {
                    units: List::from_vec(out),
                    bad: None,
                });
            }
            TextStep::Bad => {
                return Ok(Decoded {
                    units: List::from_vec(out),
                    bad: Some(place),
                });
            }
            TextStep::Itself(unit) => {
                out.push(unit)?;
                place += 1;
                (_, rest) = rest.split_at(1);
            }
            TextStep::Reference(reference) => {
                push_code(&mut out, reference.code)?;
                place += reference.count + 1;
                (_, rest) = rest.split_at(reference.count + 1);
            }
        }
    }
}

/// Each text with references is items, or items and then a reference that is none, and it stands for what its items
/// stand for.
pub fn texts_are_items()
    ensures stands { StandsForItems }
    ensures has { HasItems }
{}

/// Puts the units of a code point behind those of `out` (RFC 2781 section 2.1).
fn push_code(out: &mut Vec<u16>, code: u32) -> Result<(), NoMemory>
    requires { code < 1114112 }
    ensures { OnOk result (out.new.items ≡ out.old.items ++ encode_utf16 code) }
{
    if code < 0x1_0000 {
        out.push(code as u16)?;
    } else {
        let above = code - 0x1_0000;
        out.push((0xD800 + above / 0x400) as u16)?;
        out.push((0xDC00 + above % 0x400) as u16)?;
    }
    Ok(())
}
