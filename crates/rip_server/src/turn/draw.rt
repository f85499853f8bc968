ghost use Rattle.std.specs.Prelude.{◌≡◌, ◌∷◌, [], ℕ};
ghost use Rattle.rip_history.specs.Requests.{drawn_of};
ghost use Rattle.rip_server.specs.Deciding.{drawn_as};
ghost use Rattle.rip_server.specs.Drawing.{identifier};
ghost use Rattle.rip_server.specs.Turning.{Gives, source};

use rip_outer::Words;
use uuid::{Builder, Uuid};

/// What the words that are drawn for a session give.
#[derive(Clone, Copy)]
pub(crate) struct Drawn {
    pub id: u128,
    pub seed: u32,
}

/// The identifier of version 4 (RFC 9562, 5.4) whose 16 bytes are two words, big-endian, with version and variant set.
fn identifier(first: u64, second: u64) -> Uuid
    ensures { result ≡ identifier first second }
{
    let mut bytes = [0u8; 16];
    bytes[..8].copy_from_slice(&first.to_be_bytes());
    bytes[8..].copy_from_slice(&second.to_be_bytes());
    Builder::from_random_bytes(bytes).into_uuid()
}

/// What three words give.
fn drawn_of(first: u64, second: u64, third: u64) -> Drawn
    ensures { drawn_as result ≡ drawn_of first second third }
{
    Drawn {
        id: identifier(first, second).as_u128(),
        seed: (third % 4_294_967_296) as u32,
    }
}

/// Draws three words.
pub(crate) fn draw<W: Words>(words: &mut W) -> Drawn
    ensures { (first second third : ℕ) × (drawn_as result ≡ drawn_of first second third)
        × Gives (first ∷ second ∷ third ∷ []) (source (W.told words.old) (W.coming words.old))
        (source (W.told words.new) (W.coming words.new)) }
{
    let first = words.word();
    let second = words.word();
    let third = words.word();
    drawn_of(first, second, third)
}
