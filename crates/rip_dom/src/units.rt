ghost use Rattle.std.specs.Prelude.{◌≡◌, ◌+◌, ◌≤◌, [], ◌∷◌, slice_index_or};
ghost use Rattle.rip_values.specs.Pool.{span_behind, text_at, with_text};

use rip_base::Span;
use rip_values::Pool;
use std::alloc::Global;

/// The empty text behind all others.
pub(crate) fn end_of(alloc: Global, pool: &mut Pool) -> Span
    requires { pool.old.used ≤ pool.old.limit }
    ensures span { result ≡ span_behind pool.old [] }
    ensures added { pool.new ≡ with_text pool.old [] 0 }
{
    pool.add(alloc, &[]).unwrap()
}

/// A unit behind all texts, where the limit is known to leave room.
pub(crate) fn push_unit(alloc: Global, pool: &mut Pool, unit: u16)
    requires { pool.old.used + 1 ≤ pool.old.limit }
    ensures { pool.new ≡ with_text pool.old (unit ∷ []) 1 }
{
    pool.add(alloc, &[unit]).unwrap();
}

/// The unit at this place of the text; past its end it is 0.
pub(crate) fn unit_at(pool: &Pool, text: Span, place: u32) -> u16
    ensures { result ≡ slice_index_or (text_at pool.now text) place 0 }
{
    match pool.get(text).get(place as usize) {
        Some(unit) => *unit,
        None => 0,
    }
}
