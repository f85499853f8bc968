ghost use Rattle.std.specs.Prelude.{◌≡◌, ◌↔◌, IsTrue};
ghost use Rattle.std.specs.List.{list_all};
ghost use Rattle.rip_wire.specs.Names.{is_name_letter, IsName};

use crate::item::LONGEST_NAME;

fn is_name_letter(unit: u16) -> bool
    ensures { result ≡ is_name_letter unit }
{
    u8::try_from(unit).is_ok_and(|b| b.is_ascii_alphanumeric() || b == b'_' || b == b'.')
}

fn are_name_letters(text: &[u16]) -> bool
    ensures { result ≡ list_all is_name_letter text.now }
{
    text.iter().all(|unit| is_name_letter(*unit))
}

/// Whether the text is the name of a call: 1 to 64 ASCII letters, digits, `_` and `.`.
pub fn is_name(text: &[u16]) -> bool
    ensures { IsTrue result ↔ IsName text.now }
{
    !text.is_empty() && text.len() <= LONGEST_NAME && are_name_letters(text)
}
