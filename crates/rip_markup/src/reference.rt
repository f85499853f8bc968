ghost use Rattle.std.specs.Prelude.{◌≡◌, ◌<◌, ◌≤◌, IfSome, length};
ghost use Rattle.std.specs.List.{prefix_len, list_all};
ghost use Rattle.std.specs.Str.Parse.{digits_value};
ghost use Rattle.rip_base.specs.Units.{begins, is_hex_digit};
ghost use Rattle.rip_markup.specs.Units.{is_digit};
ghost use Rattle.rip_markup.specs.References.{named_code, is_refused_code, allowed_code, digits_code, number_code, code_of, is_reference_unit, starts_reference};
ghost use Rattle.rip_markup.specs.Steps.{reference_at, first_step, StepWithin};

use crate::ascii::{AMPERSAND, HASH, SEMICOLON, SMALL_X};
use crate::units::{is_digit, is_letter};
use rip_base::{digits_value, is_hex_digit};

/// The greatest code point of Unicode.
const LAST_CODE: u64 = 0x10_FFFF;

/// A reference.
#[derive(Clone, Copy, Debug, PartialEq, Eq)]
pub(crate) struct Reference {
    pub code: u32,
    /// How many units it has behind its `&`, with `;`.
    pub count: usize,
}

/// What a text with references begins with.
#[derive(Clone, Copy, Debug, PartialEq, Eq)]
pub(crate) enum TextStep {
    /// The text ends.
    End,
    /// A unit that stands for itself.
    Itself(u16),
    Reference(Reference),
    /// An `&` with a letter or `#` behind it that begins no reference.
    Bad,
}

/// What the text begins with (HTML 13.1.4).
pub(crate) fn first_step(text: &[u16]) -> TextStep
    ensures value { result ≡ first_step text.now }
    ensures bound { StepWithin (length text.now) result }
{
    match text {
        [] => TextStep::End,
        [AMPERSAND, after @ ..] if starts_reference(after) => match reference_at(after) {
            Some(reference) => TextStep::Reference(reference),
            None => TextStep::Bad,
        },
        [unit, ..] => TextStep::Itself(*unit),
    }
}

/// Whether a reference begins with these units behind its `&`.
fn starts_reference(after: &[u16]) -> bool
    ensures { result ≡ begins starts_reference after.now }
{
    matches!(after, [unit, ..] if is_letter(*unit) || *unit == HASH)
}

/// The reference that the units behind an `&` begin with.
fn reference_at(after: &[u16]) -> Option<Reference>
    ensures value { result ≡ reference_at after.now }
    ensures bound { IfSome result (λ r. (r.count ≤ length after.now) × (r.code < 1114112)) }
{
    let (body, rest) = after.split_at(reference_unit_count(after));
    match rest {
        [SEMICOLON, ..] => match code_of(body) {
            Some(code) => Some(Reference {
                code,
                count: body.len() + 1,
            }),
            None => None,
        },
        _ => None,
    }
}

/// How many units that a reference may hold the units begin with.
fn reference_unit_count(units: &[u16]) -> usize
    ensures value { result ≡ prefix_len is_reference_unit units.now }
    ensures bound { result ≤ length units.now }
{
    units
        .iter()
        .take_while(|unit| is_reference_unit(**unit))
        .count()
}

/// Whether a reference may hold the unit.
fn is_reference_unit(unit: u16) -> bool
    ensures { result ≡ is_reference_unit unit }
{
    is_letter(unit) || is_digit(unit) || unit == HASH
}

/// The code point that the units between `&` and `;` name.
fn code_of(body: &[u16]) -> Option<u32>
    ensures value { result ≡ code_of body.now }
    ensures bound { IfSome result (λ code. code < 1114112) }
{
    match body {
        [] => None,
        [HASH, number @ ..] => number_code(number),
        name => named_code(name),
    }
}

/// The code point of a reference by name.
#[tactic(auto, unfolding(crate::specs::References::named_code))]
fn named_code(name: &[u16]) -> Option<u32>
    ensures value { result ≡ named_code name.now }
    ensures bound { IfSome result (λ code. code < 1114112) }
{
    match name {
        [0x61, 0x6D, 0x70] => Some(0x26),
        [0x6C, 0x74] => Some(0x3C),
        [0x67, 0x74] => Some(0x3E),
        [0x71, 0x75, 0x6F, 0x74] => Some(0x22),
        [0x61, 0x70, 0x6F, 0x73] => Some(0x27),
        [0x6E, 0x62, 0x73, 0x70] => Some(0xA0),
        _ => None,
    }
}

/// The code point that the units behind `&#` name.
fn number_code(number: &[u16]) -> Option<u32>
    ensures value { result ≡ number_code number.now }
    ensures bound { IfSome result (λ code. code < 1114112) }
{
    match number {
        [] => None,
        [SMALL_X, digits @ ..] => hexadecimal_code(digits),
        digits => decimal_code(digits),
    }
}

/// The code point that hexadecimal digits name.
fn hexadecimal_code(digits: &[u16]) -> Option<u32>
    ensures value { result ≡ digits_code is_hex_digit 16 digits.now }
    ensures bound { IfSome result (λ code. code < 1114112) }
{
    match digits {
        [_, ..] if are_hexadecimal(digits) => allowed_code(16, digits),
        _ => None,
    }
}

/// The code point that decimal digits name.
fn decimal_code(digits: &[u16]) -> Option<u32>
    ensures value { result ≡ digits_code is_digit 10 digits.now }
    ensures bound { IfSome result (λ code. code < 1114112) }
{
    match digits {
        [_, ..] if are_decimal(digits) => allowed_code(10, digits),
        _ => None,
    }
}

/// Whether each of the units is a hexadecimal digit.
fn are_hexadecimal(units: &[u16]) -> bool
    ensures { result ≡ list_all is_hex_digit units.now }
{
    units.iter().all(|unit| is_hex_digit(*unit))
}

/// Whether each of the units is a decimal digit.
fn are_decimal(units: &[u16]) -> bool
    ensures { result ≡ list_all is_digit units.now }
{
    units.iter().all(|unit| is_digit(*unit))
}

/// The code point that digits stand for, if a reference may name it.
fn allowed_code(base: u16, digits: &[u16]) -> Option<u32>
    requires { base ≤ 16 }
    ensures value { result ≡ allowed_code (digits_value base digits.now) }
    ensures bound { IfSome result (λ code. code < 1114112) }
{
    let code = digits_value(base, digits);
    if is_refused_code(code) {
        None
    } else {
        Some(code as u32)
    }
}

/// Whether no reference may name the code point.
fn is_refused_code(code: u64) -> bool
    ensures { result ≡ is_refused_code code }
{
    matches!(code, 0 | 128..=159 | 0xD800..=0xDFFF) || code > LAST_CODE
}
