ghost use Rattle.std.specs.Prelude.{◌≡◌, ◌≤◌, ◌↔◌, ◌^◌, ◌<◌, ◌++◌, ℕ, ℤ, IsTrue, Result, Ok, codes, min, length, take, drop, ◌+◌, unsigned_abs};
ghost use Rattle.std.specs.Char.{digit_value};
ghost use Rattle.std.specs.Int.{is_negative};
ghost use Rattle.std.specs.List.{list_all};
ghost use Rattle.std.specs.Fmt.{signed_decimal, decimal};
ghost use Rattle.std.specs.Str.Parse.{digits_value, starts_with_minus, without_leading_sign};
ghost use Rattle.rip_base.specs.declared.value.Numeral.{Numeral};
ghost use Rattle.rip_base.specs.declared.value.Numeral.TheVariants.{Num};
ghost use Rattle.rip_base.specs.declared.value.Fault.{Fault};
ghost use Rattle.rip_base.specs.Blank.{trimmed};
ghost use Rattle.rip_base.specs.Numbers.{IsNumberOf, SpellsWhole};
ghost use Rattle.rip_base.specs.NumberScan.{IsRanged, signed_value, is_digit, is_numeral, is_hexadecimal, is_exponent, is_fraction, ends_after_digits, ends_after_point, digits_at_start};
ghost use Rattle.rip_base.specs.Whole.{IsWhole};

use crate::blank::trim;
use crate::value::{Fault, Numeral};
use crate::whole::Whole;

/// One more than the greatest whole number: larger values of digits count as it.
pub const PAST_RANGE: u64 = 9_007_199_254_740_992;

const ZERO: u16 = 0x30;

const POINT: u16 = 0x2E;

const PLUS: u16 = 0x2B;

const MINUS: u16 = 0x2D;

const CAPITAL_E: u16 = 0x45;

const SMALL_E: u16 = 0x65;

const CAPITAL_X: u16 = 0x58;

const SMALL_X: u16 = 0x78;

// `Infinity`
const INFINITY: [u16; 8] = [0x49, 0x6E, 0x66, 0x69, 0x6E, 0x69, 0x74, 0x79];

/// The number that a text spells: ToNumber of a text (ECMA-262 9.3.1) where it is whole and in range.
pub fn number_of_text(text: &[u16]) -> Result<Numeral, Fault>
    ensures value { IsNumberOf (trimmed text.now) result }
    ensures only { (answer : Result Numeral Fault) → IsNumberOf (trimmed text.now) answer → answer
        ≡ result }
    ensures written { (number : ℤ) → IsWhole number → text.now ≡ signed_decimal number → result
        ≡ Ok (Num number) }
{
    number_of_trimmed(trim(text))
}

/// Writes the decimal numeral of the number (ECMA-262 9.8.1) at the start of the room, and gives its length.
/// The rest of the room stays as it was.
pub fn text_of_whole(w: Whole, room: &mut [u16; 17]) -> usize
    ensures text { room.new ≡ signed_decimal w ++ drop result room.old }
    ensures count { result ≡ length (signed_decimal w) }
    ensures fits { result ≤ 17 }
{
    let magnitude = magnitude_of(w);
    if is_negative(w) {
        room[0] = MINUS;
        write_decimal(magnitude, room, 1)
    } else {
        write_decimal(magnitude, room, 0)
    }
}

fn magnitude_of(w: Whole) -> u64
    ensures magnitude { result ≡ unsigned_abs w }
    ensures range { result < 10 ^ 16 }
{
    w.get().unsigned_abs()
}

fn is_negative(w: Whole) -> bool
    ensures { result ≡ is_negative w }
{
    w.get().is_negative()
}

// Writes the decimal digits of the number from the place `start` on, and gives the place behind them.
fn write_decimal(number: u64, room: &mut [u16; 17], start: usize) -> usize
    requires { start + length (decimal number) ≤ 17 }
    ensures text { room.new ≡ take start room.old ++ decimal number ++ drop result room.old }
    ensures end { result ≡ start + length (decimal number) }
{
    if number < 10 {
        room[start] = ZERO + number as u16;
        return start + 1;
    }
    let last = write_decimal(number / 10, room, start);
    room[last] = ZERO + (number % 10) as u16;
    last + 1
}

fn number_of_trimmed(text: &[u16]) -> Result<Numeral, Fault>
    ensures value { IsNumberOf text.now result }
{
    if text.is_empty() {
        return whole_of(false, 10, text);
    }
    if is_hexadecimal(text) {
        return whole_of(false, 16, &text[2..]);
    }
    let (negative, literal) = split_sign(text);
    if is_numeral(10, literal) {
        whole_of(negative, 10, literal)
    } else if is_fraction(literal) {
        Err(Fault::NotWhole)
    } else if literal == INFINITY.as_slice() {
        Err(Fault::Infinite)
    } else {
        Ok(Numeral::NaN)
    }
}

/// The whole number of a sign and digits in that base, if it is in range.
pub fn whole_of(negative: bool, base: u16, digits: &[u16]) -> Result<Numeral, Fault>
    requires { base ≤ 36 }
    ensures { IsRanged (signed_value negative (digits_value base digits.now)) result }
{
    let magnitude = digits_value(base, digits) as i64;
    match Whole::new(if negative { -magnitude } else { magnitude }) {
        Some(number) => Ok(Numeral::Num(number)),
        None => Err(Fault::OutOfRange),
    }
}

/// The number that digits stand for in that base, or [`PAST_RANGE`] where it is larger.
pub fn digits_value(base: u16, digits: &[u16]) -> u64
    requires { base ≤ 36 }
    ensures { result ≡ min (digits_value base digits.now) PAST_RANGE }
{
    let mut value = 0;
    for digit in digits {
        value = (value * u64::from(base) + u64::from(digit_value(*digit))).min(PAST_RANGE);
    }
    value
}

/// Whether a minus stands first, and the text without its sign.
pub fn split_sign(text: &[u16]) -> (bool, &[u16])
    ensures minus { result.0 ≡ starts_with_minus text.now }
    ensures rest { result.1.now ≡ without_leading_sign text.now }
{
    match text {
        [MINUS, rest @ ..] => (true, rest),
        [PLUS, rest @ ..] => (false, rest),
        _ => (false, text),
    }
}

/// The value of a digit or an ASCII letter, which is at least 10, and 36 for any other unit.
pub fn digit_value(unit: u16) -> u16
    ensures { result ≡ digit_value unit }
{
    match unit {
        0x30..=0x39 => unit - 0x30,
        0x41..=0x5A => unit - 0x41 + 10,
        0x61..=0x7A => unit - 0x61 + 10,
        _ => 36,
    }
}

#[tactic(auto, unfolding(crate::specs::NumberScan::is_numeral))]
fn is_numeral(base: u16, text: &[u16]) -> bool
    ensures { result ≡ is_numeral base text.now }
{
    !text.is_empty() && are_digits(base, text)
}

fn are_digits(base: u16, text: &[u16]) -> bool
    ensures { result ≡ list_all (is_digit base) text.now }
{
    text.iter().all(|unit| digit_value(*unit) < base)
}

fn is_hexadecimal(text: &[u16]) -> bool
    ensures { result ≡ is_hexadecimal text.now }
{
    match text {
        [ZERO, CAPITAL_X | SMALL_X, digits @ ..] => is_numeral(16, digits),
        _ => false,
    }
}

#[tactic(auto, unfolding(crate::specs::NumberScan::is_exponent))]
fn is_exponent(text: &[u16]) -> bool
    ensures { result ≡ is_exponent text.now }
{
    match text {
        [CAPITAL_E | SMALL_E, rest @ ..] => is_numeral(10, split_sign(rest).1),
        _ => false,
    }
}

#[tactic(auto, unfolding(crate::specs::NumberScan::digits_at_start))]
fn digits_at_start(text: &[u16]) -> usize
    ensures count { result ≡ digits_at_start text.now }
    ensures within { result ≤ length text.now }
{
    text.iter()
        .take_while(|unit| digit_value(**unit) < 10)
        .count()
}

// Whether the text is a decimal literal with a point or an exponent.
#[tactic(auto, unfolding(crate::specs::NumberScan::is_fraction))]
fn is_fraction(text: &[u16]) -> bool
    ensures { result ≡ is_fraction text.now }
{
    let count = digits_at_start(text);
    ends_after_digits(count, &text[count..])
}

fn ends_after_digits(count: usize, text: &[u16]) -> bool
    ensures { result ≡ ends_after_digits count text.now }
{
    match text {
        [] => false,
        [POINT, rest @ ..] => ends_after_point(count, rest),
        _ => count > 0 && is_exponent(text),
    }
}

#[tactic(auto, unfolding(crate::specs::NumberScan::ends_after_point))]
fn ends_after_point(count: usize, text: &[u16]) -> bool
    ensures { result ≡ ends_after_point count text.now }
{
    let fraction = digits_at_start(text);
    if count == 0 && fraction == 0 {
        return false;
    }
    let rest = &text[fraction..];
    rest.is_empty() || is_exponent(rest)
}
