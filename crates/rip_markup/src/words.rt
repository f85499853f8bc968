ghost use Rattle.std.specs.Prelude.{◌≡◌, codes};
ghost use Rattle.rip_base.specs.Units.{small_text};
ghost use Rattle.rip_markup.specs.Words.{is_among, void_names, refused_names, script_types, begins_with};

use rip_base::{is_ascii, is_ascii_in_small};

/// Whether the element has no content and no end tag (HTML 13.1.2).
#[tactic(auto, unfolding(crate::specs::Words::void_names))]
pub fn is_void(name: &[u16]) -> bool
    ensures { result ≡ is_among void_names name.now }
{
    is_ascii(name, b"area")
        || is_ascii(name, b"base")
        || is_ascii(name, b"br")
        || is_ascii(name, b"col")
        || is_ascii(name, b"hr")
        || is_ascii(name, b"img")
        || is_ascii(name, b"input")
        || is_ascii(name, b"link")
        || is_ascii(name, b"meta")
        || is_ascii(name, b"source")
        || is_ascii(name, b"track")
        || is_ascii(name, b"wbr")
}

/// Whether no page of the subset has the element.
#[tactic(auto, unfolding(crate::specs::Words::refused_names))]
pub fn is_refused(name: &[u16]) -> bool
    ensures { result ≡ is_among refused_names name.now }
{
    is_ascii(name, b"applet")
        || is_ascii(name, b"embed")
        || is_ascii(name, b"frame")
        || is_ascii(name, b"frameset")
        || is_ascii(name, b"iframe")
        || is_ascii(name, b"math")
        || is_ascii(name, b"noembed")
        || is_ascii(name, b"noframes")
        || is_ascii(name, b"noscript")
        || is_ascii(name, b"object")
        || is_ascii(name, b"plaintext")
        || is_ascii(name, b"svg")
        || is_ascii(name, b"template")
        || is_ascii(name, b"xmp")
}

/// Whether a script may have this `type`.
#[tactic(auto, unfolding(crate::specs::Words::script_types))]
pub(crate) fn is_script_type(value: &[u16]) -> bool
    ensures { result ≡ is_among script_types (small_text value.now) }
{
    is_ascii_in_small(value, b"")
        || is_ascii_in_small(value, b"text/javascript")
        || is_ascii_in_small(value, b"application/javascript")
}

/// Whether the word begins with `on`, as the names of handlers do.
pub(crate) fn begins_with_on(word: &[u16]) -> bool
    ensures { result ≡ begins_with (codes "on") word.now }
{
    matches!(word, [0x6F, 0x6E, ..])
}
