ghost use Rattle.std.specs.Prelude.{◌≡◌, ◌<◌, ◌^◌, length};
ghost use Rattle.rip_outer.specs.Pieces.{pieces};

use crate::pieces::Lines;

/// The pieces of the text between line feeds, in order; a last piece that is empty is dropped.
pub fn lines(bytes: &[u8]) -> Lines<'_>
    ensures value { result ≡ pieces bytes.now }
    ensures bound { length result < 2 ^ 64 }
{
    Lines::over(bytes)
}
