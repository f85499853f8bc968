//! The first of the lines in a ring of bytes. Each takes time in proportion to that line.
ghost use Rattle.std.specs.Prelude.{◌≡◌, ◌↔◌, ◌==◌, ◌≤◌, length, take, position, slice_get, Some, IfOk, IsTrue};
ghost use Rattle.rip_calls.specs.Lines.{BeginsWithLine};

use crate::queue::LINE_FEED;
use circular_buffer::HeapCircularBuffer;
use rip_base::{Bytes, NoMemory};
use std::alloc::Global;

/// Where the first line feed stands.
pub(crate) fn line_end(bytes: &HeapCircularBuffer<u8>) -> Option<usize>
    ensures { result ≡ position (λ byte. byte == 10) bytes.now.items }
{
    bytes.iter().position(|byte| *byte == LINE_FEED)
}

/// Whether the byte at a place is this one.
fn holds_at(bytes: &HeapCircularBuffer<u8>, place: usize, byte: u8) -> bool
    ensures { IsTrue result ↔ (slice_get bytes.now.items place ≡ Some byte) }
{
    match bytes.get(place) {
        Some(found) => *found == byte,
        None => false,
    }
}

/// Whether the bytes begin with the text and a line feed.
pub(crate) fn begins_with_line(bytes: &HeapCircularBuffer<u8>, text: &[u8]) -> bool
    ensures { IsTrue result ↔ BeginsWithLine bytes.now.items text.now }
{
    for (place, byte) in text.iter().enumerate() {
        if !holds_at(bytes, place, *byte) {
            return false;
        }
    }
    holds_at(bytes, text.len(), LINE_FEED)
}

/// The first bytes, so many of them.
pub(crate) fn first_bytes(
    alloc: Global,
    bytes: &HeapCircularBuffer<u8>,
    count: usize,
) -> Result<Bytes, NoMemory>
    requires { count ≤ length bytes.now.items }
    ensures { IfOk result (λ text. text ≡ take count bytes.now.items) }
{
    let (front, back) = bytes.as_slices();
    let mut text = Vec::with_capacity(alloc, count)?;
    if count <= front.len() {
        text.extend_from_slice(&front[..count])?;
    } else {
        text.extend_from_slice(front)?;
        text.extend_from_slice(&back[..count - front.len()])?;
    }
    Ok(Bytes::from_vec(text))
}
