ghost use Rattle.std.specs.Prelude.{◌≡◌, ◌≢◌, ◌<◌, ◌^◌, ◌∷◌, [], length};
ghost use Rattle.rip_outer.specs.Pieces.{pieces};

use std::marker::Model;

/// An iterator over the pieces of a text between line feeds. It stands for the list of the pieces that are left.
#[derive(Debug, Drop)]
pub struct Lines<'a> {
    rest: &'a [u8],
}

impl<'a> Model for Lines<'a> {
    ghost use Rattle.std.specs.Prelude.{ℕ, List};
    ghost use Rattle.rip_outer.specs.Pieces.{pieces};

    ghost Value = { List (List ℕ) };

    ghost view = { λ s. pieces s.rest.now };
}

impl<'a> Lines<'a> {
    /// The pieces of these bytes.
    #[tactic(auto, using(crate::proofs::Cuts::length_pieces))]
    pub(crate) fn over(bytes: &'a [u8]) -> Lines<'a>
        ensures value { result ≡ pieces bytes.now }
        ensures bound { length result < 2 ^ 64 }
    {
        Lines { rest: bytes }
    }
}

impl<'a> Iterator for Lines<'a> {
    ghost use Rattle.std.specs.Iterator.{YieldsFirstRef, item_count};

    type Item = &'a [u8];

    ghost next_gives = { YieldsFirstRef (λ s. s) };

    ghost remaining = { item_count (λ s. s) };

    fn next(&mut self) -> Option<&'a [u8]> {
        if self.rest.is_empty() {
            return None;
        }
        let (line, rest) = split_first(self.rest);
        self.rest = rest;
        Some(line)
    }
}

/// The first piece of some bytes, and what follows its line feed.
fn split_first(bytes: &[u8]) -> (&[u8], &[u8])
    requires { bytes.now ≢ [] }
    ensures { pieces bytes.now ≡ result.0.now ∷ pieces result.1.now }
{
    for (place, byte) in bytes.iter().enumerate() {
        if *byte == b'\n' {
            return (&bytes[..place], &bytes[place + 1..]);
        }
    }
    bytes.split_at(bytes.len())
}
