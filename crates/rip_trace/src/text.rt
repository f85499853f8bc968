//! Parts of a line.
ghost use Rattle.std.specs.Prelude.{◌≡◌, ◌≢◌, ◌∷◌, ◌++◌, ◌<◌, ◌^◌, ℕ, List, length, decimal, IsNone, IfSome, IfNone};
ghost use Rattle.rip_trace.specs.Spaces.{HasNoSpace};
ghost use Rattle.rip_trace.specs.Spelling.{IsSession};

use rip_words::numerals::read_number;

/// What stands behind the prefix.
pub(crate) fn behind<'a>(bytes: &'a [u8], prefix: &[u8]) -> Option<&'a [u8]>
    ensures some { IfSome result (λ rest. bytes.now ≡ prefix.now ++ rest.now) }
    ensures none { IsNone result → (rest : List ℕ) → bytes.now ≢ prefix.now ++ rest }
{
    match bytes.strip_prefix(prefix) {
        Some(rest) => Some(rest),
        None => None,
    }
}

/// What stands before the first space, and behind it.
pub(crate) fn split_space(bytes: &[u8]) -> Option<(&[u8], &[u8])>
    ensures is { IfSome result (λ p. bytes.now ≡ p.0.now ++ 32 ∷ p.1.now) }
    ensures front { IfSome result (λ p. HasNoSpace p.0.now) }
    ensures none { IfNone result (HasNoSpace bytes.now) }
{
    for (at, byte) in bytes.iter().enumerate() {
        if *byte == b' ' {
            return Some((&bytes[..at], &bytes[at + 1..]));
        }
    }
    None
}

/// A numeral, and what stands behind the space that follows it.
#[tactic(auto, using(crate::proofs::Spaces::no_space_there, crate::proofs::Spaces::other_numeral))]
pub(crate) fn number_then(bytes: &[u8]) -> Option<(u64, &[u8])>
    ensures is { IfSome result (λ p. bytes.now ≡ decimal p.0 ++ 32 ∷ p.1.now) }
    ensures bounded { IfSome result (λ p. p.0 < 2 ^ 64) }
    ensures none { IsNone result
        → (n : ℕ) (rest : List ℕ) → n < 2 ^ 64 → bytes.now ≢ decimal n ++ 32 ∷ rest }
{
    let (word, rest) = split_space(bytes)?;
    let number = read_number(word)?;
    Some((number, rest))
}

/// The ordinal of a session.
pub(crate) fn session_of(number: u64) -> Option<u32>
    ensures is { IfSome result (λ s. s ≡ number) }
    ensures in_range { IfSome result IsSession }
    ensures none { IsNone result → ¬ IsSession number }
{
    let session = u32::try_from(number).ok()?;
    if session == 0 {
        return None;
    }
    Some(session)
}
