ghost use Rattle.std.specs.Prelude.{◌≡◌, codes};
ghost use Rattle.rip_markup.specs.Words.{is_among};
ghost use Rattle.rip_html.specs.Tags.{part_names, head_names, is_script, is_outside};

use rip_base::is_ascii;
use rip_markup::is_refused;

/// Whether the element may stand in the head (HTML 4.2.1).
#[tactic(auto, unfolding(crate::specs::Tags::head_names))]
pub(crate) fn is_of_head(name: &[u16]) -> bool
    ensures { result ≡ is_among head_names name.now }
{
    is_ascii(name, b"title")
        || is_ascii(name, b"style")
        || is_ascii(name, b"meta")
        || is_ascii(name, b"link")
        || is_ascii(name, b"base")
}

/// Whether the element holds a part of a page (HTML 4.1.1).
#[tactic(auto, unfolding(crate::specs::Tags::part_names))]
fn is_of_page(name: &[u16]) -> bool
    ensures { result ≡ is_among part_names name.now }
{
    is_ascii(name, b"html") || is_ascii(name, b"head") || is_ascii(name, b"body")
}

/// Whether the element is a script.
pub(crate) fn is_script(name: &[u16]) -> bool
    ensures { result ≡ is_script name.now }
{
    is_ascii(name, b"script")
}

/// Whether no content has the element.
pub(crate) fn is_outside(name: &[u16]) -> bool
    ensures { result ≡ is_outside name.now }
{
    is_refused(name) || is_of_page(name)
}
