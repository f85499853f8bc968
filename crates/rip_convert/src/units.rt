//! The characters of texts in UTF-16 (RFC 2781), and their order in UTF-8 (RFC 3629).
ghost use Rattle.std.specs.Prelude.{◌≡◌, ◌+◌, ◌<◌, ◌≤◌, ◌∷◌, ◌↔◌, IsTrue, drop, length};
ghost use Rattle.std.specs.Ordering.{nat_cmp};
ghost use Rattle.std.specs.Char.Utf16.{has_unpaired_surrogate, surrogate_pair_char, utf16_chars};
ghost use Rattle.std.specs.Cmp.Lexicographic.{slice_cmp};
ghost use Rattle.rip_data.specs.Datum.{utf8_of};
ghost use Rattle.rip_data.specs.Written.{IsPair};

use std::cmp::Ordering;

/// The character at the place, or none for a surrogate that has no partner; and how many units it has.
pub(crate) fn char_at(units: &[u16], at: usize) -> (Option<char>, usize)
    requires { at < length units.now }
    ensures char { utf16_chars (drop at units.now)
        ≡ result.0 ∷ utf16_chars (drop (at + result.1) units.now) }
    ensures some { 1 ≤ result.1 }
    ensures within { at + result.1 ≤ length units.now }
{
    let unit = units[at];
    if at + 1 < units.len() && is_pair(unit, units[at + 1]) {
        (char::from_u32(pair_char(unit, units[at + 1])), 2)
    } else {
        (char::from_u32(u32::from(unit)), 1)
    }
}

// The units are the two of a character past U+FFFF (RFC 2781 section 2.2).
fn is_pair(high: u16, low: u16) -> bool
    ensures { IsTrue result ↔ IsPair high low }
{
    0xD800 <= high && high < 0xDC00 && 0xDC00 <= low && low < 0xE000
}

// The character of a pair.
fn pair_char(high: u16, low: u16) -> u32
    requires { IsPair high low }
    ensures code { result ≡ surrogate_pair_char high low }
    ensures within { (0x10000 ≤ result) × (result < 0x110000) }
{
    0x10000 + (u32::from(high) - 0xD800) * 0x400 + (u32::from(low) - 0xDC00)
}

/// Whether some surrogate has no partner.
pub(crate) fn has_unpaired_surrogate(units: &[u16]) -> bool
    ensures { result ≡ has_unpaired_surrogate units.now }
{
    let mut at = 0;
    while at < units.len() {
        let (found, count) = char_at(units, at);
        if found.is_none() {
            return true;
        }
        at += count;
    }
    false
}

/// The order of two texts by the bytes of their UTF-8, which is that of their characters.
pub(crate) fn compare_texts(a: &[u16], b: &[u16]) -> Ordering
    ensures { result ≡ slice_cmp nat_cmp (utf8_of a.now) (utf8_of b.now) }
{
    let mut i = 0;
    let mut j = 0;
    while i < a.len() && j < b.len() {
        let (x, x_count) = char_at(a, i);
        let (y, y_count) = char_at(b, j);
        let x = x.unwrap_or(char::REPLACEMENT_CHARACTER);
        let y = y.unwrap_or(char::REPLACEMENT_CHARACTER);
        if x != y {
            return x.cmp(&y);
        }
        i += x_count;
        j += y_count;
    }
    if i < a.len() {
        Ordering::Greater
    } else if j < b.len() {
        Ordering::Less
    } else {
        Ordering::Equal
    }
}
