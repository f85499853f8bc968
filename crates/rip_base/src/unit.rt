ghost use Rattle.std.specs.Prelude.{◌≡◌, ◌<◌};
ghost use Rattle.std.specs.Str.{bytes_eq};
ghost use Rattle.rip_base.specs.Units.{is_hex_digit, hex_value, small_unit, small_text};

/// Whether the unit is a hexadecimal digit.
#[tactic(auto, unfolding(crate::specs::Units::is_hex_digit))]
pub fn is_hex_digit(unit: u16) -> bool
    ensures { result ≡ is_hex_digit unit }
{
    matches!(unit, 0x30..=0x39 | 0x61..=0x66 | 0x41..=0x46)
}

/// The number that a hexadecimal digit stands for, and 0 for any other unit.
#[tactic(auto, unfolding(crate::specs::Units::hex_value))]
pub fn hex_value(unit: u16) -> u16
    ensures value { result ≡ hex_value unit }
    ensures small { result < 16 }
{
    match unit {
        0x30..=0x39 => unit - 0x30,
        0x61..=0x66 => unit - 0x57,
        0x41..=0x46 => unit - 0x37,
        _ => 0,
    }
}

/// The unit in small letters: of a capital of ASCII its small letter.
pub fn small_unit(unit: u16) -> u16
    ensures { result ≡ small_unit unit }
{
    match unit {
        0x41..=0x5A => unit + 32,
        _ => unit,
    }
}

/// Whether the units are those of an ASCII text.
pub fn is_ascii(units: &[u16], ascii: &[u8]) -> bool
    ensures { result ≡ bytes_eq units.now ascii.now }
{
    let mut rest = units;
    for byte in ascii {
        match rest {
            [unit, after @ ..] if *unit == u16::from(*byte) => rest = after,
            _ => return false,
        }
    }
    rest.is_empty()
}

/// Whether the units in small letters are those of an ASCII text.
pub fn is_ascii_in_small(units: &[u16], ascii: &[u8]) -> bool
    ensures { result ≡ bytes_eq (small_text units.now) ascii.now }
{
    let mut rest = units;
    for byte in ascii {
        match rest {
            [unit, after @ ..] if small_unit(*unit) == u16::from(*byte) => rest = after,
            _ => return false,
        }
    }
    rest.is_empty()
}
