ghost use Rattle.std.specs.Prelude.{◌≡◌, ◌↔◌, IsTrue};
ghost use Rattle.std.specs.List.{list_all};
ghost use Rattle.rip_manifest.specs.Names.{is_name_letter, IsName, IsPrefix};

/// The most letters of a name and of a prefix.
pub const MOST_LETTERS: usize = 64;

fn is_name_letter(b: u8) -> bool
    ensures { result ≡ is_name_letter b }
{
    b.is_ascii_alphanumeric() || b == b'_' || b == b'.'
}

fn are_name_letters(text: &[u8]) -> bool
    ensures { result ≡ list_all is_name_letter text.now }
{
    text.iter().all(|b| is_name_letter(*b))
}

// Whether the text is a prefix of keys.
pub(crate) fn is_prefix(text: &[u8]) -> bool
    ensures { IsTrue result ↔ IsPrefix text.now }
{
    text.len() <= MOST_LETTERS && are_name_letters(text)
}

// Whether the text is the name of a call.
pub(crate) fn is_name(text: &[u8]) -> bool
    ensures { IsTrue result ↔ IsName text.now }
{
    !text.is_empty() && is_prefix(text)
}
