ghost use Rattle.std.specs.Prelude.{◌≡◌, ◌≤◌, ◌↔◌, [], ◌∷◌, length, pos, IsSome, IfSome};
ghost use Rattle.rip_base.specs.Units.{begins, is_one_of};
ghost use Rattle.rip_lexer.specs.Numeral.{numeral_fault, numeral_value, has_prefix};
ghost use Rattle.rip_lexer.specs.View.{numeral_count};

use crate::ascii::{CAPITAL_E, CAPITAL_X, POINT, SMALL_E, SMALL_X, ZERO};
use crate::refusal::{Fault, LexKind};
use crate::units::{begins_with_digit, begins_with_name_unit, digit_count, hex_digit_count};
use rip_base::{Whole, digits_value};

/// How many units the longest numeral has that the units begin with (ECMA-262 7.8.3).
pub(crate) fn numeral_count(units: &[u16]) -> usize
    ensures value { result ≡ numeral_count units.now }
    ensures bound { result ≤ length units.now }
{
    match units {
        [ZERO, SMALL_X | CAPITAL_X, digits @ ..] => match hex_digit_count(digits) {
            0 => 1,
            count => count + 2,
        },
        [ZERO, _, ..] => 1,
        _ => digit_count(units),
    }
}

/// What is wrong with a numeral that this rest follows.
#[tactic(auto, unfolding(crate::specs::Numeral::numeral_fault))]
pub(crate) fn numeral_fault(spelling: &[u16], rest: &[u16]) -> Option<Fault>
    ensures value { result ≡ numeral_fault spelling.now rest.now }
    ensures bound { IfSome result (λ found. found.offset ≤ length spelling.now) }
{
    let (_, after_digits) = rest.split_at(digit_count(rest));
    if !is_hexadecimal(spelling) && begins_fraction(after_digits) {
        Some(Fault {
            offset: 0,
            kind: LexKind::FractionLiteral,
        })
    } else if begins_with_digit(rest) {
        Some(Fault {
            offset: 0,
            kind: LexKind::OctalLiteral,
        })
    } else if numeral_value(spelling).is_none() {
        Some(Fault {
            offset: 0,
            kind: LexKind::LiteralTooLarge,
        })
    } else if begins_with_name_unit(rest) {
        Some(Fault {
            offset: spelling.len(),
            kind: LexKind::BadCharacter,
        })
    } else {
        None
    }
}

/// Whether the units go on as a fraction behind its first digits: with a point or an exponent.
fn begins_fraction(units: &[u16]) -> bool
    ensures { result ≡ begins (is_one_of (46 ∷ 101 ∷ 69 ∷ [])) units.now }
{
    matches!(units, [POINT | SMALL_E | CAPITAL_E, ..])
}

/// Whether the numeral is hexadecimal: only these have two units or more behind a `0`.
fn is_hexadecimal(spelling: &[u16]) -> bool
    ensures { result ≡ has_prefix spelling.now }
{
    matches!(spelling, [ZERO, SMALL_X | CAPITAL_X, _, ..])
}

/// The whole number that a numeral stands for (ECMA-262 7.8.3), or none where it is above 2^53 - 1.
#[tactic(auto, unfolding(crate::specs::Numeral::numeral_value))]
pub fn numeral_value(spelling: &[u16]) -> Option<Whole>
    ensures some { IsSome result ↔ (numeral_value spelling.now ≤ 9007199254740991) }
    ensures value { IfSome result (λ whole. whole ≡ pos (numeral_value spelling.now)) }
{
    let value = if is_hexadecimal(spelling) {
        digits_value(16, &spelling[2..])
    } else {
        digits_value(10, spelling)
    };
    Whole::new(value as i64)
}
