ghost use Rattle.std.specs.Prelude.{◌≡◌, ℕ, ◌+◌, ◌-◌, ◌≤◌, ◌<◌, ◌^◌, length, sum, take, drop, IfOk, IfSome, IsNone, decimal};
ghost use Rattle.std.specs.List.{All};
ghost use Rattle.rip_client.specs.Cutting.{IsCut, IsLongest, frame_size};

use itoa::Buffer;
use rip_base::NoMemory;
use std::alloc::Global;

/// The most items of a batch.
pub(crate) const MOST_ITEMS: usize = 64;

/// The most bytes of a batch's body.
pub const MOST_BYTES: usize = 65_536;

/// The most bytes of the text of an item that fits a batch of its own, whatever the batch's number.
pub const LARGEST_ITEM: usize = 65_495;

/// How many of the items each batch takes, where these are the bytes of the items' texts, in order, and the first batch
/// has this number. An empty list makes one empty batch.
pub fn cut(alloc: Global, sizes: &[usize], first: u64) -> Result<Vec<usize>, NoMemory>
    requires each { All (λ size. size ≤ LARGEST_ITEM) sizes.now }
    requires numbers { first + length sizes.now < 2 ^ 64 }
    ensures { IfOk result (λ counts. IsCut first sizes.now counts.items) }
{
    let mut counts = Vec::new(alloc);
    let mut number = first;
    let mut start = 0;
    loop {
        let count = longest_behind(sizes, start, number);
        counts.push(count)?;
        if count == sizes.len() - start {
            return Ok(counts);
        }
        start += count;
        number += 1;
    }
}

// How many of the items behind the first ones the batch of this number takes.
fn longest_behind(sizes: &[usize], start: usize, number: u64) -> usize
    requires each { All (λ size. size ≤ LARGEST_ITEM) sizes.now }
    requires within { start ≤ length sizes.now }
    ensures longest { IsLongest number (drop start sizes.now) result }
    ensures some { start < length sizes.now → 0 < result }
{
    longest(&sizes[start..], number)
}

// How many of the items the batch of this number takes.
fn longest(sizes: &[usize], number: u64) -> usize
    ensures { IsLongest number sizes.now result }
{
    let mut room = MOST_BYTES - frame_size(number);
    for (taken, size) in sizes.iter().enumerate() {
        if taken == MOST_ITEMS {
            return taken;
        }
        let Some(left) = room_behind(room, taken, *size) else {
            return taken;
        };
        room = left;
    }
    sizes.len()
}

// The room that an item of this size leaves, which stands behind so many, if it has room.
fn room_behind(room: usize, taken: usize, size: usize) -> Option<usize>
    ensures some { IfSome result (λ left. left + (taken - (taken - 1) + size) ≡ room) }
    ensures none { IsNone result → room < taken - (taken - 1) + size }
{
    let comma = if taken == 0 { 0 } else { 1 };
    room.checked_sub(comma)?.checked_sub(size)
}

// The bytes of the body of an empty batch of this number.
pub(crate) fn frame_size(number: u64) -> usize
    ensures size { result ≡ frame_size number }
    ensures small { result ≤ 41 }
{
    let mut buffer = Buffer::new();
    21 + buffer.format(number).len()
}
