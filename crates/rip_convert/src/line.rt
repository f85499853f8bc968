ghost use Rattle.std.specs.Prelude.{◌≡◌, ◌+◌, ◌<◌, ◌≤◌, ◌∷◌, ◌++◌, [], IfOk, MatchOption, None, Some, length, vec_capacity};
ghost use Rattle.std.specs.Char.{digit_char, encode_utf8};
ghost use Rattle.json.specs.Print.{escape, escape_byte, quoted};
ghost use Rattle.rip_data.specs.Datum.{utf8_of};
ghost use Rattle.rip_convert.specs.Written.{added};

use crate::units::char_at;
use rip_base::NoMemory;
use rip_data::MAX_LENGTH;
use std::alloc::Global;
use std::marker::Model;

/// A text under way. Once it would pass 16,384 bytes there is none, and nothing more is written.
#[derive(Drop)]
pub(crate) struct Line {
    bytes: Vec<u8>,
    over: bool,
}

impl Model for Line {
    ghost use Rattle.std.specs.Prelude.{◌≤◌, List, ℕ, Option, None, Some, if◌then◌else◌, length, vec_capacity};

    ghost Value = { Option (List ℕ) };

    ghost view = { λ l. if l.over then None else Some l.bytes.items };

    ghost invariant = { λ l. (length l.bytes.items ≤ 16384) × (16384 ≤ vec_capacity l.bytes) };
}

impl Line {
    /// No text yet, and the room for one.
    pub(crate) fn make(alloc: Global) -> Result<Line, NoMemory>
        ensures { IfOk result (λ line. line ≡ Some []) }
    {
        Ok(Line {
            bytes: Vec::with_capacity(alloc, MAX_LENGTH)?,
            over: false,
        })
    }

    /// The text is empty again.
    pub(crate) fn clear(&mut self)
        ensures { self.new ≡ Some [] }
    {
        self.bytes.truncate(0);
        self.over = false;
    }

    /// The text, unless it would be too long.
    pub(crate) fn text(&self) -> Option<&[u8]>
        ensures { MatchOption result (self.now ≡ None) (λ text. self.now ≡ Some text.now) }
    {
        if self.over {
            None
        } else {
            Some(self.bytes.as_slice())
        }
    }

    /// Puts bytes behind the text.
    pub(crate) fn push_all(&mut self, more: &[u8])
        ensures { self.new ≡ added self.old more.now }
    {
        if more.len() > MAX_LENGTH - self.bytes.len() {
            self.over = true;
        }
        if !self.over {
            append(&mut self.bytes, more);
        }
    }

    /// Puts a byte behind the text.
    pub(crate) fn push(&mut self, byte: u8)
        ensures { self.new ≡ added self.old (byte ∷ []) }
    {
        self.push_all(&[byte]);
    }

    /// Puts a text in quotes behind (RFC 8259 section 7).
    pub(crate) fn push_text(&mut self, units: &[u16])
        ensures { self.new ≡ added self.old (quoted (utf8_of units.now)) }
    {
        self.push(b'"');
        let mut at = 0;
        while at < units.len() {
            let (found, count) = char_at(units, at);
            self.push_char(found.unwrap_or(char::REPLACEMENT_CHARACTER));
            at += count;
        }
        self.push(b'"');
    }

    // Puts a character behind, as it stands between quotes.
    fn push_char(&mut self, c: char)
        ensures { self.new ≡ added self.old (escape (encode_utf8 c)) }
    {
        let mut room = [0u8; 4];
        let bytes = c.encode_utf8(&mut room).as_bytes();
        for byte in bytes {
            self.push_byte(*byte);
        }
    }

    // Puts a byte behind, as it stands between quotes.
    #[tactic(auto, unfolding(json::specs::Print::escape_byte))]
    fn push_byte(&mut self, byte: u8)
        ensures { self.new ≡ added self.old (escape_byte byte) }
    {
        if byte == b'"' || byte == b'\\' {
            self.push_all(&[b'\\', byte]);
        } else if byte >= 0x20 {
            self.push(byte);
        } else if byte == 8 {
            self.push_all(&[b'\\', b'b']);
        } else if byte == 9 {
            self.push_all(&[b'\\', b't']);
        } else if byte == 10 {
            self.push_all(&[b'\\', b'n']);
        } else if byte == 12 {
            self.push_all(&[b'\\', b'f']);
        } else if byte == 13 {
            self.push_all(&[b'\\', b'r']);
        } else {
            self.push_all(&[b'\\', b'u', b'0', b'0', digit(byte / 16), digit(byte % 16)]);
        }
    }
}

// The digit of this value below 16.
fn digit(value: u8) -> u8
    requires { value < 16 }
    ensures { result ≡ digit_char value }
{
    if value < 10 { b'0' + value } else { 87 + value }
}

/// Puts bytes behind others, for which there is room.
pub(crate) fn append(bytes: &mut Vec<u8>, more: &[u8])
    requires { length bytes.old.items + length more.now ≤ vec_capacity bytes.old }
    ensures bytes { bytes.new.items ≡ bytes.old.items ++ more.now }
    ensures room { vec_capacity bytes.new ≡ vec_capacity bytes.old }
{
    for byte in more {
        bytes.push_reserved(*byte);
    }
}
