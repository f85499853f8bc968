ghost use Rattle.std.specs.Prelude.{◌≡◌, ◌==◌, ◌≤◌, ◌++◌, ℕ, List, IfSome, IsTrue, OnOk, OnErr, length, option_to_list};
ghost use Rattle.rip_base.specs.Units.{begins};
ghost use Rattle.rip_lexer.specs.Units.{is_quote};
ghost use Rattle.rip_lexer.specs.Text.{refused_kind, fault_at, option_or, StandsFor};
ghost use Rattle.rip_lexer.specs.View.{ReadsEnd};

use crate::character::{Character, first_character};
use crate::refusal::{Fault, LexKind};
use rip_base::NoMemory;

/// How a text ends.
#[derive(Clone, Copy, Debug, PartialEq, Eq)]
pub(crate) struct TextEnd {
    /// How many units it has with both quotes, where it is closed.
    pub count: usize,
    /// What is wrong with it.
    pub fault: Option<Fault>,
}

/// The end of the text that the units begin with (ECMA-262 7.8.4).
pub(crate) fn text_end(units: &[u16]) -> TextEnd
    requires { IsTrue (begins is_quote units.now) }
    ensures reads { ReadsEnd units.now result }
    ensures bound { IfSome result.fault (λ found. found.offset ≤ length units.now) }
{
    let quote = units[0];
    let (_, mut rest) = units.split_at(1);
    let mut count: usize = 1;
    let mut fault = None;
    while let Some(character) = first_character(quote, rest) {
        fault = first_fault(fault, count, character);
        count += character.width();
        (_, rest) = rest.split_at(character.width());
    }
    if begins_with(rest, quote) {
        TextEnd {
            count: count + 1,
            fault,
        }
    } else {
        TextEnd {
            count: count + 1,
            fault: Some(Fault {
                offset: 0,
                kind: LexKind::OpenText,
            }),
        }
    }
}

/// Puts the units that a text with its quotes stands for behind those of `out` (ECMA-262 7.8.4). Where memory runs
/// out, `out` is as it was.
pub fn text_value(out: &mut Vec<u16>, spelling: &[u16]) -> Result<(), NoMemory>
    requires { (units : List ℕ) × StandsFor spelling.now units }
    ensures ok { OnOk result
        ((units : List ℕ) → StandsFor spelling.now units → out.new.items ≡ out.old.items ++ units) }
    ensures err { OnErr result (out.new.items ≡ out.old.items) }
{
    let before = out.len();
    let pushed = push_value(out, spelling);
    if pushed.is_err() {
        out.truncate(before);
    }
    pushed
}

/// Does the work of [`text_value`], but leaves a part of the units where memory runs out.
fn push_value(out: &mut Vec<u16>, spelling: &[u16]) -> Result<(), NoMemory>
    requires { (units : List ℕ) × StandsFor spelling.now units }
    ensures ok { OnOk result
        ((units : List ℕ) → StandsFor spelling.now units → out.new.items ≡ out.old.items ++ units) }
    ensures kept { (added : List ℕ) × (out.new.items ≡ out.old.items ++ added) }
{
    let quote = spelling[0];
    let (_, mut rest) = spelling.split_at(1);
    while let Some(character) = first_character(quote, rest) {
        push_unit(out, character.value())?;
        (_, rest) = rest.split_at(character.width());
    }
    Ok(())
}

/// Puts a unit behind those of `out`, where there is one.
fn push_unit(out: &mut Vec<u16>, unit: Option<u16>) -> Result<(), NoMemory>
    ensures ok { OnOk result (out.new.items ≡ out.old.items ++ option_to_list unit) }
    ensures err { OnErr result (out.new.items ≡ out.old.items) }
{
    match unit {
        Some(unit) => Ok(out.push(unit)?),
        None => Ok(()),
    }
}

/// Whether the units begin with this one.
fn begins_with(units: &[u16], first: u16) -> bool
    ensures { result ≡ begins (λ c. c == first) units.now }
{
    matches!(units, [unit, ..] if *unit == first)
}

/// The fault that was found before, or else that of a character which stands at this offset.
fn first_fault(found: Option<Fault>, offset: usize, character: Character) -> Option<Fault>
    ensures value { result ≡ option_or found (fault_at offset character) }
    ensures bound { IfSome found (λ before. before.offset ≤ offset)
        → IfSome result (λ fault. fault.offset ≤ offset) }
{
    match (found, character) {
        (None, Character::Refused(unit)) => Some(Fault {
            offset,
            kind: refused_kind(unit),
        }),
        _ => found,
    }
}

/// Why `\` and this unit make no escape.
fn refused_kind(unit: u16) -> LexKind
    ensures { result ≡ refused_kind unit }
{
    match unit {
        0x30..=0x37 => LexKind::OctalLiteral,
        _ => LexKind::BadEscape,
    }
}
