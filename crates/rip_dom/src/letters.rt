ghost use Rattle.std.specs.Prelude.{◌≡◌, ◌+◌, ◌≤◌, length};
ghost use Rattle.rip_values.specs.Pool.{span_behind, text_at, with_text};
ghost use Rattle.rip_dom.specs.Letters.{text_in, unit_in};

use crate::units::{end_of, push_unit, unit_at};
use rip_base::{Span, small_unit};
use rip_values::Pool;
use std::alloc::Global;

/// Letters that a text is put in.
#[derive(Clone, Copy, Debug, PartialEq)]
pub enum Letters {
    Small,
    Capital,
}

/// A text in these letters behind all others, where the limit is known to leave room.
pub fn push_in(alloc: Global, pool: &mut Pool, text: Span, letters: Letters) -> Span
    requires { pool.old.used + length (text_at pool.old text) ≤ pool.old.limit }
    ensures span { result ≡ span_behind pool.old (text_in letters (text_at pool.old text)) }
    ensures added { pool.new ≡ with_text pool.old (text_in letters (text_at pool.old text))
        (length (text_at pool.old text)) }
{
    let held = pool.held(text);
    let end = end_of(alloc, pool);
    for i in 0..held.count {
        let unit = unit_in(letters, unit_at(pool, held, i));
        push_unit(alloc, pool, unit);
    }
    Span {
        start: end.start,
        count: held.count,
    }
}

fn unit_in(letters: Letters, unit: u16) -> u16
    ensures { result ≡ unit_in letters unit }
{
    match letters {
        Letters::Small => small_unit(unit),
        Letters::Capital => capital_unit(unit),
    }
}

fn capital_unit(unit: u16) -> u16
    ensures { result ≡ unit_in Letters.Capital unit }
{
    match unit {
        0x61..=0x7A => unit - 32,
        _ => unit,
    }
}
