ghost use Rattle.std.specs.Prelude.{◌≡◌, ℕ, ◌≤◌, ◌++◌, ◌∷◌, [], List as Items, length, min, ◌↔◌, IsTrue};
ghost use Rattle.rip_client.specs.Cutting.{Fits, body_size};

use crate::cutting::batches::{MOST_BYTES, MOST_ITEMS, frame_size};

/// The bytes of the body of a batch of this number without items.
pub fn empty_size(number: u64) -> usize
    ensures { result ≡ body_size number [] }
{
    frame_size(number)
}

/// The bytes of a body, which has so many items, with one more, whose text has so many bytes. A number past the range of
/// `usize` is told as `usize::MAX`.
pub fn size_with(bytes: usize, taken: usize, size: usize) -> usize
    ensures { (number : ℕ) (sizes : Items ℕ) → taken ≡ length sizes
        → bytes ≡ min (body_size number sizes) usize.MAX
        → result ≡ min (body_size number (sizes ++ size ∷ [])) usize.MAX }
{
    let comma = if taken == 0 { 0 } else { 1 };
    bytes.saturating_add(comma).saturating_add(size)
}

/// Whether a batch may have one item more, whose text has so many bytes, where it has so many items in a body of so many
/// bytes.
pub fn has_room(bytes: usize, taken: usize, size: usize) -> bool
    ensures { (number : ℕ) (sizes : Items ℕ) → taken ≡ length sizes
        → bytes ≡ min (body_size number sizes) usize.MAX
        → IsTrue result ↔ Fits number (sizes ++ size ∷ []) }
{
    taken < MOST_ITEMS && size_with(bytes, taken, size) <= MOST_BYTES
}
