ghost use Rattle.std.specs.Prelude.{◌≡◌, ◌<◌, ◌≤◌, ◌+◌, ℕ, List, IfSome, IsNone, length, nat_eq, slice_range};
ghost use Rattle.std.specs.Cmp.Lexicographic.{pointwise};
ghost use Rattle.rip_values.specs.Pool.{span_behind, text_at, with_text};
ghost use Rattle.rip_dom.specs.Reading.{Reads, own_span, text_below};
ghost use Rattle.rip_dom.specs.Tree.{node_at};
ghost use Rattle.rip_dom.specs.Way.{span_at};

use crate::dom::Dom;
use crate::kinds::is_text;
use crate::order::{Step, is_end};
use crate::units::end_of;
use rip_base::{Limit, Refused, Span};
use rip_values::Pool;
use std::alloc::Global;

/// Why a text is not read: it is longer than a run may make texts, or it is past the limit of units.
#[derive(Clone, Copy, Debug, PartialEq)]
pub enum TextRefused {
    TooLong,
    Refused(Refused),
}

impl Dom {
    /// The texts of the node and of all that is below it, joined in document order to a new text; comments are left out.
    pub fn read_text(&self, alloc: Global, pool: &mut Pool, n: u32) -> Result<Span, TextRefused>
        ensures { Reads (text_below pool.old self.now n) pool.old result pool.new }
    {
        match self.count_below(pool, n) {
            Some(count) => {
                if count > pool.free() {
                    return Err(TextRefused::Refused(Refused::Limit(Limit::Units)));
                }
                Ok(self.push_below(alloc, pool, n, count))
            }
            None => Err(TextRefused::TooLong),
        }
    }

    /// Whether the texts of the node and of all that is below it, joined, are this text. Nothing is made.
    pub fn has_text(&self, pool: &Pool, n: u32, text: &[u16]) -> bool
        ensures { result ≡ pointwise nat_eq text.now (text_below pool.now self.now n) }
    {
        self.grows();
        let mut rest = text;
        let mut at = Step::Enter(n);
        for _i in 0..self.steps() {
            if is_end(at) {
                return rest.is_empty();
            }
            match rest.strip_prefix(pool.get(self.span_at(at))) {
                Some(behind) => rest = behind,
                None => return false,
            }
            at = self.step(n, at);
        }
        rest.is_empty()
    }

    // The length of the texts below the node, or none where it passes the limit of texts.
    fn count_below(&self, pool: &Pool, n: u32) -> Option<u32>
        ensures some { IfSome result (λ count. count ≡ length (text_below pool.now self.now n)) }
        ensures within { IfSome result (λ count. count ≤ pool.now.text_limit) }
        ensures none { IsNone result →
            pool.now.text_limit < length (text_below pool.now self.now n) }
    {
        self.grows();
        let most = pool.text_limit();
        let mut left = most;
        let mut at = Step::Enter(n);
        for _i in 0..self.steps() {
            if is_end(at) {
                return Some(most - left);
            }
            let more = pool.get(self.span_at(at)).len();
            if more > left as usize {
                return None;
            }
            left -= more as u32;
            at = self.step(n, at);
        }
        Some(most - left)
    }

    // Puts the texts below the node behind all others, where the limit is known to leave room.
    fn push_below(&self, alloc: Global, pool: &mut Pool, n: u32, count: u32) -> Span
        requires count { count ≡ length (text_below pool.old self.now n) }
        requires room { pool.old.used + count ≤ pool.old.limit }
        ensures span { result ≡ span_behind pool.old (text_below pool.old self.now n) }
        ensures added { pool.new ≡ with_text pool.old (text_below pool.old self.now n) count }
    {
        self.grows();
        let start = end_of(alloc, pool).start;
        let mut at = Step::Enter(n);
        for _i in 0..self.steps() {
            if is_end(at) {
                return Span { start, count };
            }
            push_text(pool, part_before(self.span_at(at), start));
            at = self.step(n, at);
        }
        Span { start, count }
    }

    // The text that a step adds: of a text node that is entered its own.
    fn span_at(&self, at: Step) -> Span
        ensures { result ≡ span_at self.now at }
    {
        match at {
            Step::Enter(n) => self.own_span(n),
            Step::Leave(_) => NO_TEXT,
            Step::End => NO_TEXT,
        }
    }

    fn own_span(&self, n: u32) -> Span
        ensures { result ≡ own_span (node_at self.now n) }
    {
        if !is_text(self.kind(n)) {
            return NO_TEXT;
        }
        match self.text(n) {
            Some(text) => text,
            None => NO_TEXT,
        }
    }
}

/// The span of no text.
const NO_TEXT: Span = Span { start: 0, count: 0 };

// The part of the span that lies before the place.
fn part_before(span: Span, end: u32) -> Span
    ensures lies { result.start + result.count ≤ end }
    ensures text { (units : List ℕ) → length units ≡ end →
        slice_range units result.start (result.start + result.count)
        ≡ slice_range units span.start (span.start + span.count) }
{
    let stop = (u64::from(span.start) + u64::from(span.count)).min(u64::from(end)) as u32;
    let start = span.start.min(stop);
    Span {
        start,
        count: stop - start,
    }
}

// The text once more behind all others, where the limit is known to leave room.
fn push_text(pool: &mut Pool, text: Span)
    requires { pool.old.used + length (text_at pool.old text) ≤ pool.old.limit }
    ensures { pool.new ≡
        with_text pool.old (text_at pool.old text) (length (text_at pool.old text)) }
{
    pool.add_joined(text, NO_TEXT).unwrap();
}
