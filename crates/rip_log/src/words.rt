//! The words of a line, one after the other.
ghost use Rattle.std.specs.Prelude.{◌≡◌, ◌≢◌, ◌↔◌, ◌<◌, ◌≤◌, ◌^◌, ◌+◌, ◌∷◌, ℕ, List, [], length, take, drop, decimal, IsTrue, IsNone, IfSome, IfNone};
ghost use Rattle.std.specs.Bool.{OnTrue, OnFalse};
ghost use Rattle.rip_log.specs.Words.{place_after, ends_word, words};

use rip_words::numerals::read_number;
use std::marker::Model;

/// Where a reader of a line stands: outside of the texts of its JSON, in one, or behind a backslash in one.
#[derive(Clone, Copy)]
enum Place {
    Outside,
    Inside,
    Escaped,
}

impl Place {
    fn after(self, byte: u8) -> Place
        ensures { result ≡ place_after self byte }
    {
        match self {
            Place::Outside if byte == b'"' => Place::Inside,
            Place::Outside => Place::Outside,
            Place::Inside if byte == b'"' => Place::Outside,
            Place::Inside if byte == b'\\' => Place::Escaped,
            Place::Inside | Place::Escaped => Place::Inside,
        }
    }

    fn ends_word(self, byte: u8) -> bool
        ensures { result ≡ ends_word self byte }
    {
        matches!(self, Place::Outside) && byte == b' '
    }
}

/// The words of a line that are left.
#[derive(Drop)]
pub(crate) struct Words<'a> {
    rest: Option<&'a [u8]>,
}

impl<'a> Model for Words<'a> {
    ghost use Rattle.std.specs.Prelude.{List, ℕ, option_map};
    ghost use Rattle.rip_log.specs.Words.{words_left};

    ghost Value = { List (List ℕ) };

    ghost view = { λ w. words_left (option_map (λ r. r.now) w.rest) };
}

impl<'a> Words<'a> {
    pub fn of(line: &'a [u8]) -> Words<'a>
        ensures { result ≡ words line.now }
    {
        Words { rest: Some(line) }
    }

    /// Takes the next word.
    pub fn next(&mut self) -> Option<&'a [u8]>
        ensures some { IfSome result (λ w. self.old ≡ w.now ∷ self.new) }
        ensures none { IfNone result (self.old ≡ []) }
        ensures kept { IfNone result (self.new ≡ []) }
    {
        let rest = self.rest?;
        match word_end(rest) {
            Some(end) => {
                self.rest = Some(&rest[end + 1..]);
                Some(&rest[..end])
            }
            None => {
                self.rest = None;
                Some(rest)
            }
        }
    }

    /// Whether no word is left.
    #[tactic(auto, using(crate::proofs::Closed::some_left))]
    pub fn is_at_end(&self) -> bool
        ensures { IsTrue result ↔ (self.now ≡ []) }
    {
        match self.rest {
            None => true,
            Some(_) => false,
        }
    }

    /// Takes the next word, which is the numeral of a number of 64 bits.
    pub fn number(&mut self) -> Option<u64>
        ensures some { IfSome result (λ n. self.old ≡ decimal n ∷ self.new) }
        ensures none { IsNone result
            → (n : ℕ) (rest : List (List ℕ)) → n < 2 ^ 64 → self.old ≢ decimal n ∷ rest }
    {
        read_number(self.next()?)
    }

    /// Takes the next word, which is the numeral of a number of 32 bits.
    #[tactic(auto, using(crate::proofs::Numbers::large_number))]
    pub fn short(&mut self) -> Option<u32>
        ensures some { IfSome result (λ n. self.old ≡ decimal n ∷ self.new) }
        ensures none { IsNone result
            → (n : ℕ) (rest : List (List ℕ)) → n < 2 ^ 32 → self.old ≢ decimal n ∷ rest }
    {
        short_of(self.number()?)
    }
}

/// The number, if it is one of 32 bits.
fn short_of(number: u64) -> Option<u32>
    ensures some { IfSome result (λ n. n ≡ number) }
    ensures none { IsNone result → 2 ^ 32 ≤ number }
{
    u32::try_from(number).ok()
}

/// Whether the word is this one.
pub(crate) fn is_word(word: &[u8], text: &str) -> bool
    ensures yes { OnTrue result (word.now ≡ text.now) }
    ensures no { OnFalse result (word.now ≢ text.now) }
{
    word == text.as_bytes()
}

/// Where the first word of the text ends, if not with the text.
fn word_end(text: &[u8]) -> Option<usize>
    ensures within { IfSome result (λ end. end < length text.now) }
    ensures some { IfSome result
        (λ end. words text.now ≡ take end text.now ∷ words (drop (end + 1) text.now)) }
    ensures none { IfNone result (words text.now ≡ text.now ∷ []) }
{
    let mut place = Place::Outside;
    for (at, byte) in text.iter().enumerate() {
        if place.ends_word(*byte) {
            return Some(at);
        }
        place = place.after(*byte);
    }
    None
}
