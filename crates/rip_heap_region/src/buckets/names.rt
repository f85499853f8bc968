ghost use Rattle.std.specs.Prelude.{◌≡◌, ◌<◌, ◌↔◌, IsTrue, slice_index};
ghost use Rattle.rip_values.specs.Pool.{IsSpan, text_at};
ghost use Rattle.rip_heap_region.specs.Names.{same_text};
ghost use Rattle.rip_heap_region.specs.NameIndex.{bucket_of};

use rip_base::Span;
use rip_values::Pool;

/// Whether a name stands for the text of another one, which was fetched. Equal names are not read.
pub fn has_text(pool: &Pool, name: Span, other: Span, text: &[u16]) -> bool
    requires { text.now ≡ text_at pool.now other }
    ensures { result ≡ same_text pool.now name other }
{
    name == other || pool.get(name) == text
}

/// Whether the name lies in the pool.
pub fn lies_in(pool: &Pool, name: Span) -> bool
    ensures { IsTrue result ↔ IsSpan pool.now name }
{
    name.start as usize + name.count as usize <= pool.end() as usize
}

/// The number at this place; past the end it is 0.
pub fn number_at(numbers: &[u32], place: u32) -> u32
    ensures { result ≡ slice_index numbers.now place }
{
    match numbers.get(place as usize) {
        Some(number) => *number,
        None => 0,
    }
}

/// The bucket of a text, of so many.
pub fn bucket_of(text: &[u16], count: u32) -> u32
    requires { 0 < count }
    ensures bucket { result ≡ bucket_of count text.now }
    ensures within { result < count }
{
    let mut hash: u32 = 0;
    for unit in text {
        hash = hash.wrapping_mul(31).wrapping_add(u32::from(*unit));
    }
    hash % count
}
