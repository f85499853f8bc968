ghost use Rattle.std.specs.Prelude.{◌≡◌, ◌≤◌, length, not};
ghost use Rattle.std.specs.List.{prefix_len};
ghost use Rattle.rip_base.specs.Units.{begins, is_hex_digit};
ghost use Rattle.rip_lexer.specs.Units.{class_of, is_digit, is_name_unit, is_line_end, is_blank};

use rip_base::{is_hex_digit, is_line_end as ends_line, is_white_space};

/// What a unit of a script may begin.
#[derive(Clone, Copy, Debug, PartialEq, Eq)]
pub(crate) enum UnitClass {
    /// A letter of ASCII, `$` or `_`.
    NameStart,
    Digit,
    LineEnd,
    White,
    /// `"` or `'`.
    Quote,
    /// The first unit of a punctuator.
    Mark,
    /// A unit that begins nothing.
    Other,
}

/// The class of a unit (ECMA-262 7.2, 7.3, 7.6, 7.7, 7.8.4).
#[tactic(auto, unfolding(crate::specs::Units::class_of))]
pub(crate) fn class_of(unit: u16) -> UnitClass
    ensures { result ≡ class_of unit }
{
    match unit {
        0x61..=0x7A | 0x41..=0x5A | 0x24 | 0x5F => UnitClass::NameStart,
        0x30..=0x39 => UnitClass::Digit,
        _ if ends_line(unit) => UnitClass::LineEnd,
        _ if is_white_space(unit) => UnitClass::White,
        0x22 | 0x27 => UnitClass::Quote,
        0x21 | 0x25 | 0x26 | 0x28..=0x2F | 0x3A..=0x3F | 0x5B | 0x5D | 0x5E | 0x7B..=0x7E =>
            UnitClass::Mark,
        _ => UnitClass::Other,
    }
}

/// Whether the unit is a decimal digit.
pub(crate) fn is_digit(unit: u16) -> bool
    ensures { result ≡ is_digit unit }
{
    matches!(class_of(unit), UnitClass::Digit)
}

/// Whether a name may hold the unit behind its first.
pub(crate) fn is_name_unit(unit: u16) -> bool
    ensures { result ≡ is_name_unit unit }
{
    matches!(class_of(unit), UnitClass::NameStart | UnitClass::Digit)
}

/// Whether the unit is a line end (ECMA-262 7.3).
pub(crate) fn is_line_end(unit: u16) -> bool
    ensures { result ≡ is_line_end unit }
{
    matches!(class_of(unit), UnitClass::LineEnd)
}

/// Whether the unit is white space or a line end (ECMA-262 7.2, 7.3).
pub(crate) fn is_blank(unit: u16) -> bool
    ensures { result ≡ is_blank unit }
{
    matches!(class_of(unit), UnitClass::White | UnitClass::LineEnd)
}

/// Whether the units begin with a decimal digit.
pub(crate) fn begins_with_digit(units: &[u16]) -> bool
    ensures { result ≡ begins is_digit units.now }
{
    matches!(units, [unit, ..] if is_digit(*unit))
}

/// Whether the units begin with one that a name may hold.
pub(crate) fn begins_with_name_unit(units: &[u16]) -> bool
    ensures { result ≡ begins is_name_unit units.now }
{
    matches!(units, [unit, ..] if is_name_unit(*unit))
}

/// How many decimal digits the units begin with.
pub(crate) fn digit_count(units: &[u16]) -> usize
    ensures value { result ≡ prefix_len is_digit units.now }
    ensures bound { result ≤ length units.now }
{
    units.iter().take_while(|unit| is_digit(**unit)).count()
}

/// How many hexadecimal digits the units begin with.
pub(crate) fn hex_digit_count(units: &[u16]) -> usize
    ensures value { result ≡ prefix_len is_hex_digit units.now }
    ensures bound { result ≤ length units.now }
{
    units.iter().take_while(|unit| is_hex_digit(**unit)).count()
}

/// How many units that a name may hold the units begin with.
pub(crate) fn name_unit_count(units: &[u16]) -> usize
    ensures value { result ≡ prefix_len is_name_unit units.now }
    ensures bound { result ≤ length units.now }
{
    units.iter().take_while(|unit| is_name_unit(**unit)).count()
}

/// How many units stand before the first line end.
pub(crate) fn line_count(units: &[u16]) -> usize
    ensures value { result ≡ prefix_len (λ c. not (is_line_end c)) units.now }
    ensures bound { result ≤ length units.now }
{
    units.iter().take_while(|unit| !is_line_end(**unit)).count()
}
