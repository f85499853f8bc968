ghost use Rattle.std.specs.Prelude.{◌≡◌, ◌==◌, ℕ, [], Some, IfSome, get_or, map, nat_eq};
ghost use Rattle.std.specs.List.{list_all, zip};
ghost use Rattle.std.specs.Cmp.Lexicographic.{pointwise};
ghost use Rattle.rip_values.specs.declared.fixed.FixedText.{FixedText};
ghost use Rattle.rip_values.specs.FixedTable.{text_of};
ghost use Rattle.rip_values.specs.FixedTexts.{fixed_span};
ghost use Rattle.rip_values.specs.FixedSearch.{fixed_text, texts_of_length};

use crate::fixed::{BY_LENGTH, FixedText};
use rip_base::Span;

impl FixedText {
    /// The fixed text that is spelled so, if there is one. Only texts of the same length are looked at.
    pub fn of(text: &[u16]) -> Option<FixedText>
        ensures text { IfSome result (λ fixed. text_of fixed ≡ text.now) }
        ensures only { (fixed : FixedText) → text_of fixed ≡ text.now → result ≡ Some fixed }
    {
        spelled_so(text)
    }

    /// The place of the text in every pool.
    pub fn span(self) -> Span
        ensures { fixed_span (text_of self) ≡ Some result }
    {
        Span {
            start: self.start(),
            count: self.text().len() as u32,
        }
    }
}

/// The fixed text that is spelled so, if there is one, sought among those of its length.
#[tactic(auto, unfolding(crate::specs::FixedSearch::fixed_text))]
fn spelled_so(text: &[u16]) -> Option<FixedText>
    ensures { result ≡ fixed_text text.now }
{
    of_length(text.len())
        .iter()
        .copied()
        .find(|fixed| is_spelled(fixed.text(), text))
}

// The fixed texts of this length.
fn of_length(length: usize) -> &'static [FixedText]
    ensures { result.now ≡ texts_of_length length }
{
    texts_at(&BY_LENGTH, length)
}

// The texts at this place of a table, or none.
fn texts_at(table: &[&'static [FixedText]], place: usize) -> &'static [FixedText]
    ensures { result.now ≡ get_or (map (λ texts. texts.now) table.now) place [] }
{
    match table.get(place) {
        Some(texts) => texts,
        None => &[],
    }
}

// Whether the units spell the ASCII text.
pub(crate) fn is_spelled(spelling: &str, text: &[u16]) -> bool
    ensures { result ≡ pointwise nat_eq spelling.now text.now }
{
    spelling.len() == text.len() && are_alike(spelling.as_bytes(), text)
}

// Whether the units are the bytes, one for one, of which there are as many.
fn are_alike(bytes: &[u8], units: &[u16]) -> bool
    ensures { result ≡ list_all (λ p. p.0 == p.1) (zip bytes.now units.now) }
{
    bytes
        .iter()
        .zip(units.iter())
        .all(|(byte, unit)| u16::from(*byte) == *unit)
}
