ghost use Rattle.std.specs.Prelude.{◌≡◌, ◌+◌, ◌≤◌, length, IfSome};
ghost use Rattle.rip_lexer.specs.Text.{character_value, escape_value, width};
ghost use Rattle.rip_lexer.specs.View.{escape_of, first_character, null_escape, continuation, hex_escape, unicode_escape};

use crate::ascii::{
    BACKSLASH, CARRIAGE_RETURN, LINE_FEED, SMALL_B, SMALL_F, SMALL_N, SMALL_R, SMALL_T, SMALL_U,
    SMALL_V, SMALL_X, ZERO,
};
use crate::units::{begins_with_digit, is_digit, is_line_end};
use rip_base::{hex_value, is_hex_digit};

/// A character of a text, as it is spelled between the quotes (ECMA-262 7.8.4).
#[derive(Clone, Copy, Debug, PartialEq, Eq)]
pub(crate) enum Character {
    /// A unit that stands for itself.
    Plain(u16),
    /// `\` and a unit of one letter, or one that stands for itself.
    Escaped(u16),
    /// `\0`.
    Null,
    /// `\x` and two hexadecimal digits.
    Hexadecimal(u16, u16),
    /// `\u` and four hexadecimal digits.
    Unicode(u16, u16, u16, u16),
    /// `\` and a line end, which stand for nothing.
    Continuation(u16),
    /// `\`, CR and LF.
    ContinuationPair,
    /// `\` and a unit with which it makes no escape.
    Refused(u16),
}

impl Character {
    /// How many units the character has.
    pub(crate) fn width(self) -> usize
        ensures { result ≡ width self }
    {
        match self {
            Character::Plain(_) => 1,
            Character::Escaped(_)
            | Character::Null
            | Character::Continuation(_)
            | Character::Refused(_) => 2,
            Character::ContinuationPair => 3,
            Character::Hexadecimal(..) => 4,
            Character::Unicode(..) => 6,
        }
    }

    /// The unit that the character stands for, if it stands for one.
    pub(crate) fn value(self) -> Option<u16>
        ensures { result ≡ character_value self }
    {
        match self {
            Character::Plain(unit) => Some(unit),
            Character::Escaped(unit) => Some(escape_value(unit)),
            Character::Null => Some(0),
            Character::Hexadecimal(a, b) => Some(hex_value(a) * 16 + hex_value(b)),
            Character::Unicode(a, b, c, d) => Some(
                ((hex_value(a) * 16 + hex_value(b)) * 16 + hex_value(c)) * 16 + hex_value(d),
            ),
            Character::Continuation(_) | Character::ContinuationPair | Character::Refused(_) => {
                None
            }
        }
    }
}

/// What `\` and a unit of one letter stand for; any other unit stands for itself.
fn escape_value(unit: u16) -> u16
    ensures { result ≡ escape_value unit }
{
    match unit {
        SMALL_B => 8,
        SMALL_T => 9,
        SMALL_N => 10,
        SMALL_V => 11,
        SMALL_F => 12,
        SMALL_R => 13,
        _ => unit,
    }
}

/// The character that the units begin with, in a text with this quote; none where the text ends or breaks off.
pub(crate) fn first_character(quote: u16, units: &[u16]) -> Option<Character>
    ensures value { result ≡ first_character quote units.now }
    ensures bound { IfSome result (λ character. width character ≤ length units.now) }
{
    match units {
        [unit, ..] if *unit == quote || is_line_end(*unit) => None,
        [BACKSLASH, escaped, rest @ ..] => Some(escape_of(*escaped, rest)),
        [] | [BACKSLASH] => None,
        [unit, ..] => Some(Character::Plain(*unit)),
    }
}

/// The escape that `\`, this unit and the rest begin with.
fn escape_of(escaped: u16, rest: &[u16]) -> Character
    ensures value { result ≡ escape_of escaped rest.now }
    ensures bound { width result ≤ length rest.now + 2 }
{
    match escaped {
        ZERO => null_escape(rest),
        SMALL_X => hex_escape(rest),
        SMALL_U => unicode_escape(rest),
        unit if is_digit(unit) => Character::Refused(unit),
        unit if is_line_end(unit) => continuation(unit, rest),
        unit => Character::Escaped(unit),
    }
}

/// The escape that `\0` and these units begin with.
fn null_escape(units: &[u16]) -> Character
    ensures value { result ≡ null_escape units.now }
    ensures bound { width result ≤ length units.now + 2 }
{
    if begins_with_digit(units) {
        Character::Refused(ZERO)
    } else {
        Character::Null
    }
}

/// The continuation that `\`, this line end and these units begin with: CR and LF are one line end.
fn continuation(line_end: u16, units: &[u16]) -> Character
    ensures value { result ≡ continuation line_end units.now }
    ensures bound { width result ≤ length units.now + 2 }
{
    if line_end == CARRIAGE_RETURN && matches!(units, [LINE_FEED, ..]) {
        Character::ContinuationPair
    } else {
        Character::Continuation(line_end)
    }
}

/// The escape that `\x` and these units begin with.
fn hex_escape(units: &[u16]) -> Character
    ensures value { result ≡ hex_escape units.now }
    ensures bound { width result ≤ length units.now + 2 }
{
    match units {
        [a, b, ..] if is_hex_digit(*a) && is_hex_digit(*b) => Character::Hexadecimal(*a, *b),
        _ => Character::Refused(SMALL_X),
    }
}

/// The escape that `\u` and these units begin with.
fn unicode_escape(units: &[u16]) -> Character
    ensures value { result ≡ unicode_escape units.now }
    ensures bound { width result ≤ length units.now + 2 }
{
    match units {
        [a, b, c, d, ..]
            if is_hex_digit(*a) && is_hex_digit(*b) && is_hex_digit(*c) && is_hex_digit(*d) => {
            Character::Unicode(*a, *b, *c, *d)
        }
        _ => Character::Refused(SMALL_U),
    }
}
