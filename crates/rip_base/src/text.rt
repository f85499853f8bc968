ghost use Rattle.std.specs.Prelude.{◌≡◌, ◌≢◌, ◌↔◌, ℕ, List as Items, IfOk, IsErr, true, ◌⊎◌, IfErr};
ghost use Rattle.std.specs.Str.{IsUtf8, chars};
ghost use Rattle.std.specs.Char.Utf16.{has_unpaired_surrogate};
ghost use Rattle.rip_base.specs.Text.{IsSameText, IsUtf16, encode_utf16_all};

use crate::list::{Bytes, List, Units};
use crate::value::TextError;
use std::alloc::{AllocError, Global};
use std::str;
use std::string::FromUtf16Error;

impl List<u16> {
    /// The text that the bytes spell in UTF-8 (RFC 3629), as units of UTF-16.
    pub fn from_utf8(alloc: Global, bytes: &[u8]) -> Result<Units, TextError>
        ensures text { IfOk result (λ units. IsSameText bytes.now units) }
        ensures only { (units : Items ℕ) → IsSameText bytes.now units
            → IfOk result (λ made. made ≡ units) }
        ensures not_utf8 { (result ≡ Err TextError.NotUtf8) ↔ (¬ (IsUtf8 bytes.now)) }
        ensures paired { result ≢ Err TextError.LoneSurrogate }
    {
        match str::from_utf8(bytes) {
            Ok(text) => Ok(Units::from_vec(units_of(alloc, text)?)),
            Err(_) => Err(TextError::NotUtf8),
        }
    }

    /// The UTF-8 of the text (RFC 3629).
    pub fn to_utf8(&self, alloc: Global) -> Result<Bytes, TextError>
        ensures text { IfOk result (λ bytes. IsSameText bytes self.now) }
        ensures only { (bytes : Items ℕ) → IsSameText bytes self.now
            → IfOk result (λ made. made ≡ bytes) }
        ensures lone { result ≡ Err TextError.LoneSurrogate → has_unpaired_surrogate self.now
            ≡ true }
        ensures refused { has_unpaired_surrogate self.now ≡ true → IsErr result }
        ensures unpaired { has_unpaired_surrogate self.now ≡ true → ¬ (IsUtf16 self.now) }
        ensures encoded { result ≢ Err TextError.NotUtf8 }
    {
        let read: Result<Result<String, FromUtf16Error>, AllocError> = String::from_utf16(
            alloc,
            self.as_slice(),
        );
        match read {
            Ok(Ok(text)) => Ok(Bytes::from_vec(text.into_bytes())),
            Ok(Err(_)) => Err(TextError::LoneSurrogate),
            Err(_) => Err(TextError::Memory),
        }
    }
}

// The units of the text, of which there are at most as many as it has bytes.
fn units_of(alloc: Global, text: &str) -> Result<Vec<u16>, AllocError>
    ensures { IfOk result (λ units. units.items ≡ encode_utf16_all (chars text.now)) }
{
    let mut units = Vec::with_capacity(alloc, text.len())?;
    for c in text.chars() {
        let mut room = [0; 2];
        units.extend_from_slice(c.encode_utf16(&mut room))?;
    }
    Ok(units)
}
