ghost use Rattle.std.specs.Prelude.{◌≡◌, ◌+◌, ◌<◌, ◌≤◌, ◌||◌, false, None, drop, length, option_map, IfSome};
ghost use Rattle.rip_lexer.specs.View.{first_part, comment_of, before_close, shown, shown_body, ReadsGap};

use crate::ascii::{SLASH, STAR};
use crate::units::{is_blank, is_line_end, line_count};

/// A gap, or a part of one: how many units it has, and whether it holds a line end.
#[derive(Clone, Copy, Debug, PartialEq, Eq)]
pub(crate) struct Gap {
    pub count: usize,
    pub holds_line_end: bool,
}

/// The longest gap that the units begin with (ECMA-262 7.2, 7.3, 7.4).
pub(crate) fn longest_gap(units: &[u16]) -> Gap
    ensures bound { result.count ≤ length units.now }
    ensures reads { ReadsGap units.now result.count result.holds_line_end
        (drop result.count units.now) }
    ensures longest { first_part (drop result.count units.now) ≡ None }
{
    let mut rest = units;
    let mut gap = Gap {
        count: 0,
        holds_line_end: false,
    };
    while let Some(part) = first_part(rest) {
        gap = Gap {
            count: gap.count + part.count,
            holds_line_end: or(gap.holds_line_end, part.holds_line_end),
        };
        (_, rest) = rest.split_at(part.count);
    }
    gap
}

/// Whether one of the two holds.
fn or(first: bool, second: bool) -> bool
    ensures { result ≡ (first || second) }
{
    first || second
}

/// The part of a gap that the units begin with.
fn first_part(units: &[u16]) -> Option<Gap>
    ensures part { result ≡ option_map shown (first_part units.now) }
    ensures bound { IfSome result (λ part. (0 < part.count) × (part.count ≤ length units.now)) }
{
    match units {
        [unit, ..] if is_blank(*unit) => Some(Gap {
            count: 1,
            holds_line_end: is_line_end(*unit),
        }),
        [SLASH, after @ ..] => comment(after),
        _ => None,
    }
}

/// The comment that `/` and these units begin with.
fn comment(units: &[u16]) -> Option<Gap>
    ensures part { result ≡ option_map shown (comment_of units.now) }
    ensures bound { IfSome result (λ part. (0 < part.count) × (part.count ≤ length units.now + 1)) }
{
    match units {
        [SLASH, body @ ..] => Some(Gap {
            count: line_count(body) + 2,
            holds_line_end: false,
        }),
        [STAR, body @ ..] => block_comment(body),
        _ => None,
    }
}

/// The comment that `/*` and these units begin with.
fn block_comment(units: &[u16]) -> Option<Gap>
    ensures part { result ≡ option_map (shown_body 4 false) (before_close units.now) }
    ensures bound { IfSome result (λ part. (0 < part.count) × (part.count ≤ length units.now + 2)) }
{
    let mut rest = units;
    let mut count: usize = 4;
    let mut holds_line_end = false;
    while let [unit, after @ ..] = rest {
        if *unit == STAR && matches!(after, [SLASH, ..]) {
            return Some(Gap {
                count,
                holds_line_end,
            });
        }
        count += 1;
        holds_line_end = or(holds_line_end, is_line_end(*unit));
        rest = after;
    }
    None
}
