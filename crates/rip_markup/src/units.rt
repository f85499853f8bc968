ghost use Rattle.std.specs.Prelude.{◌≡◌, ◌≤◌, length};
ghost use Rattle.std.specs.List.{prefix_len};
ghost use Rattle.rip_base.specs.Units.{begins};
ghost use Rattle.rip_markup.specs.Units.{is_space, is_letter, is_digit, is_name_unit, is_attribute_unit, is_quote, is_unquoted};

/// Whether the unit is TAB, LF, FF or SP.
#[tactic(auto, unfolding(crate::specs::Units::is_space))]
pub(crate) fn is_space(unit: u16) -> bool
    ensures { result ≡ is_space unit }
{
    matches!(unit, 9 | 10 | 12 | 32)
}

/// Whether the unit is a letter of ASCII.
#[tactic(auto, unfolding(crate::specs::Units::is_letter))]
pub(crate) fn is_letter(unit: u16) -> bool
    ensures { result ≡ is_letter unit }
{
    matches!(unit, 0x61..=0x7A | 0x41..=0x5A)
}

/// Whether the unit is a decimal digit.
#[tactic(auto, unfolding(crate::specs::Units::is_digit))]
pub(crate) fn is_digit(unit: u16) -> bool
    ensures { result ≡ is_digit unit }
{
    matches!(unit, 0x30..=0x39)
}

/// Whether an element's name may hold the unit.
#[tactic(auto, unfolding(crate::specs::Units::is_name_unit))]
pub(crate) fn is_name_unit(unit: u16) -> bool
    ensures { result ≡ is_name_unit unit }
{
    is_letter(unit) || is_digit(unit) || unit == 0x2D
}

/// Whether an attribute's name may hold the unit.
#[tactic(auto, unfolding(crate::specs::Units::is_attribute_unit))]
pub(crate) fn is_attribute_unit(unit: u16) -> bool
    ensures { result ≡ is_attribute_unit unit }
{
    is_name_unit(unit) || matches!(unit, 0x5F | 0x3A | 0x2E)
}

/// Whether the unit is a quote.
#[tactic(auto, unfolding(crate::specs::Units::is_quote))]
pub(crate) fn is_quote(unit: u16) -> bool
    ensures { result ≡ is_quote unit }
{
    matches!(unit, 0x22 | 0x27)
}

/// Whether a value without quotes may hold the unit.
#[tactic(auto, unfolding(crate::specs::Units::is_unquoted))]
pub(crate) fn is_unquoted(unit: u16) -> bool
    ensures { result ≡ is_unquoted unit }
{
    !(is_space(unit) || is_quote(unit) || matches!(unit, 0x3D | 0x3C | 0x3E | 0x60))
}

/// How many units of space the units begin with.
pub(crate) fn space_count(units: &[u16]) -> usize
    ensures value { result ≡ prefix_len is_space units.now }
    ensures bound { result ≤ length units.now }
{
    units.iter().take_while(|unit| is_space(**unit)).count()
}

/// How many units of an element's name the units begin with.
pub(crate) fn name_count(units: &[u16]) -> usize
    ensures value { result ≡ prefix_len is_name_unit units.now }
    ensures bound { result ≤ length units.now }
{
    units.iter().take_while(|unit| is_name_unit(**unit)).count()
}

/// How many units of an attribute's name the units begin with.
pub(crate) fn attribute_name_count(units: &[u16]) -> usize
    ensures value { result ≡ prefix_len is_attribute_unit units.now }
    ensures bound { result ≤ length units.now }
{
    units
        .iter()
        .take_while(|unit| is_attribute_unit(**unit))
        .count()
}

/// How many units of a value without quotes the units begin with.
pub(crate) fn unquoted_count(units: &[u16]) -> usize
    ensures value { result ≡ prefix_len is_unquoted units.now }
    ensures bound { result ≤ length units.now }
{
    units.iter().take_while(|unit| is_unquoted(**unit)).count()
}

/// Whether the units begin with a letter of ASCII.
pub(crate) fn begins_with_letter(units: &[u16]) -> bool
    ensures { result ≡ begins is_letter units.now }
{
    matches!(units, [unit, ..] if is_letter(*unit))
}
