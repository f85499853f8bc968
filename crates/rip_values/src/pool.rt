ghost use Rattle.std.specs.Prelude.{◌≡◌, ◌↔◌, ℕ, ◌+◌, ◌-◌, ◌^◌, ◌<◌, ◌≤◌, ◌++◌, [], length, OnOk, OnErr, IfOk, IfErr, IsErr, IfSome, IsNone, vec_len, vec_capacity, min};
ghost use Rattle.std.specs.List.{flat_map};
ghost use Rattle.rip_values.specs.Pool.{Texts, cut_pool, text_at, IsReserved, IsSpan, held, span_behind, with_text, joined, KeepsTexts};
ghost use Rattle.rip_values.specs.FixedTable.{text_of, fixed_size};
ghost use Rattle.rip_values.specs.FixedTexts.{fixed_span, fixed_units};
ghost use Rattle.rip_values.specs.declared.fixed.FixedText.{FixedText};

use crate::fixed::{FIXED_TEXTS, FIXED_UNITS, FixedText};
use rip_base::{Limit, NoMemory, Refused, Span};
use std::alloc::Global;
use std::marker::Model;

/// Units that a pool has room for from the start beside its limit: the names of a usual program and page.
const ROOM_FOR_NAMES: u32 = 4_096;

/// The texts of a session. Texts are only added, so that a span stands for the same text for ever.
///
/// The fixed texts stand in every pool. All that may still be charged has its room from the start, so that charged
/// texts take no memory.
#[derive(Debug, Drop)]
pub struct Pool {
    units: Vec<u16>,
    used: u32,
    limit: u32,
    text_limit: u32,
}

impl Model for Pool {
    ghost use Rattle.std.specs.Prelude.{vec_capacity};
    ghost use Rattle.rip_values.specs.Pool.{Texts, IsPool};

    ghost Value = { Texts };

    ghost view = { λ p. record { units = p.units.items; used = p.used; limit = p.limit; text_limit = p.text_limit } };

    ghost invariant = { λ p. IsPool p.units.items p.used p.limit (vec_capacity p.units) };
}

impl Pool {
    /// A pool of the fixed texts alone, in which `limit` units can be charged. `text` is the longest text that a run
    /// makes, in units.
    pub fn make(alloc: Global, limit: u32, text: u32) -> Result<Pool, NoMemory>
        ensures { IfOk result
            (λ pool. pool ≡ record
            { units = fixed_units; used = 0; limit = limit; text_limit = text }) }
    {
        Ok(Pool::of(Pool::reserve(alloc, limit)?, limit, text))
    }

    /// The units with which a pool of that limit begins. All memory that charged texts will need is taken here, and no more
    /// than this: two bytes for each unit of the limit, and 9,738 more.
    pub fn reserve(alloc: Global, limit: u32) -> Result<Vec<u16>, NoMemory>
        ensures { IfOk result (λ units. IsReserved units.items (vec_capacity units) limit) }
    {
        if limit > u32::MAX - FIXED_UNITS {
            return Err(NoMemory);
        }
        let room = FIXED_UNITS as usize + ROOM_FOR_NAMES as usize + limit as usize;
        let mut units = Vec::with_capacity(alloc, room)?;
        push_fixed(&mut units);
        Ok(units)
    }

    /// A pool that has its memory in these units.
    pub fn of(units: Vec<u16>, limit: u32, text: u32) -> Pool
        requires { IsReserved units.items (vec_capacity units) limit }
        ensures { result
            ≡ record { units = fixed_units; used = 0; limit = limit; text_limit = text } }
    {
        Pool {
            units,
            used: 0,
            limit,
            text_limit: text,
        }
    }

    /// The longest text that a run makes, in units.
    pub fn text_limit(&self) -> u32
        ensures { result ≡ self.now.text_limit }
    {
        self.text_limit
    }

    /// The units that may be charged.
    pub fn limit(&self) -> u32
        ensures { result ≡ self.now.limit }
    {
        self.limit
    }

    /// The units that were charged.
    pub fn used(&self) -> u32
        ensures { result ≡ self.now.used }
    {
        self.used
    }

    /// The units that may still be charged.
    pub fn free(&self) -> u32
        ensures left { result ≡ self.now.limit - self.now.used }
        ensures within { self.now.used ≤ self.now.limit }
    {
        self.limit - self.used
    }

    /// How many units all texts have: where the next one will stand. All that may still be charged can be named by a
    /// span.
    pub fn end(&self) -> u32
        ensures end { result ≡ length self.now.units }
        ensures fixed { length fixed_units ≤ result }
        ensures room { result + (self.now.limit - self.now.used) < 2 ^ 32 }
        ensures within { self.now.used ≤ self.now.limit }
    {
        let _left = self.limit - self.used;
        self.units.len() as u32
    }

    /// A span of this pool that stands for the same text: what lies in the pool is itself, and of what does not it is
    /// the part that is there. Who keeps a text that is handed to it keeps this.
    pub fn held(&self, s: Span) -> Span
        ensures span { result ≡ held self.now s }
        ensures lies { IsSpan self.now result }
        ensures text { text_at self.now result ≡ text_at self.now s }
        ensures same { IsSpan self.now s → result ≡ s }
    {
        let (start, end) = within(s, self.units.len());
        Span {
            start: start as u32,
            count: (end - start) as u32,
        }
    }

    /// The text that the span stands for. Of a span past the end it is the part that is there.
    pub fn get(&self, s: Span) -> &[u16]
        ensures text { result.now ≡ text_at self.now s }
        ensures end { s.start + length result.now < 2 ^ 32 }
    {
        let (start, end) = within(s, self.units.len());
        &self.units[start..end]
    }

    /// The span of a fixed text, which is the same in every pool.
    pub fn fixed(&self, text: &[u16]) -> Option<Span>
        ensures span { result ≡ fixed_span text.now }
        ensures stands { IfSome result (λ span. text_at self.now span ≡ text.now) }
        ensures lies { IfSome result (IsSpan self.now) }
        ensures none { IsNone result ↔ ((fixed : FixedText) → ¬ (text_of fixed ≡ text.now)) }
    {
        let _ = &self.units;
        match FixedText::of(text) {
            Some(fixed) => Some(fixed.span()),
            None => None,
        }
    }

    /// Adds a text at no charge: a name of the program or of the page, before the first script starts.
    pub fn add_fixed(&mut self, alloc: Global, text: &[u16]) -> Result<Span, NoMemory>
        ensures span { IfOk result (λ span. span ≡ span_behind self.old text.now) }
        ensures added { OnOk result (self.new ≡ with_text self.old text.now 0) }
        ensures stands { IfOk result (λ span. text_at self.new span ≡ text.now) }
        ensures older { KeepsTexts self.old self.new }
        ensures err { OnErr result (self.new ≡ self.old) }
    {
        let left = (self.limit - self.used) as usize;
        let start = self.units.len();
        if text.len() > u32::MAX as usize - start - left {
            return Err(NoMemory);
        }
        reserve_more(&mut self.units, text.len() + left)?;
        self.units.extend_from_slice(text)?;
        Ok(Span {
            start: start as u32,
            count: text.len() as u32,
        })
    }

    /// Adds a text and charges its length. It takes no memory: its room was taken when the pool was made.
    pub fn add(&mut self, alloc: Global, text: &[u16]) -> Result<Span, Refused>
        ensures limit { (result ≡ Err (Refused.Limit Limit.Units))
            ↔ (self.old.limit < self.old.used + length text.now) }
        ensures only_limit { IfErr result (λ refused. refused ≡ Refused.Limit Limit.Units) }
        ensures span { IfOk result (λ span. span ≡ span_behind self.old text.now) }
        ensures added { OnOk result (self.new ≡ with_text self.old text.now (length text.now)) }
        ensures stands { IfOk result (λ span. text_at self.new span ≡ text.now) }
        ensures older { KeepsTexts self.old self.new }
        ensures err { OnErr result (self.new ≡ self.old) }
    {
        if text.len() > (self.limit - self.used) as usize {
            return Err(Refused::Limit(Limit::Units));
        }
        let span = Span {
            start: self.units.len() as u32,
            count: text.len() as u32,
        };
        self.units.extend_from_slice(text).unwrap();
        self.used += span.count;
        Ok(span)
    }

    /// Adds two texts of the pool joined to one, and charges its length. It takes no memory.
    pub fn add_joined(&mut self, first: Span, second: Span) -> Result<Span, Limit>
        ensures limit { IsErr result
            ↔ (self.old.limit < self.old.used + length (joined self.old first second)) }
        ensures only_units { IfErr result (λ limit. limit ≡ Limit.Units) }
        ensures span { IfOk result
            (λ span. span ≡ span_behind self.old (joined self.old first second)) }
        ensures added { OnOk result
            (self.new ≡ with_text self.old (joined self.old first second)
            (length (joined self.old first second))) }
        ensures stands { IfOk result
            (λ span. text_at self.new span ≡ joined self.old first second) }
        ensures older { KeepsTexts self.old self.new }
        ensures err { OnErr result (self.new ≡ self.old) }
    {
        let (first_start, first_end) = within(first, self.units.len());
        let (second_start, second_end) = within(second, self.units.len());
        let count = first_end - first_start + (second_end - second_start);
        if count > (self.limit - self.used) as usize {
            return Err(Limit::Units);
        }
        let span = Span {
            start: self.units.len() as u32,
            count: count as u32,
        };
        self.units
            .extend_from_within(first_start..first_end)
            .unwrap();
        self.units
            .extend_from_within(second_start..second_end)
            .unwrap();
        self.used += span.count;
        Ok(span)
    }

    /// Takes back the texts that were added since the pool had so many units, of which so many were charged. Their spans
    /// stand for nothing from then on, so that this is for who made them all, and hands none out.
    pub fn cut_back(&mut self, end: u32, used: u32)
        requires fixed { length fixed_units ≤ end }
        requires end { end ≤ length self.old.units }
        requires used { used ≤ self.old.used }
        requires charged { self.old.used + end ≤ used + length self.old.units }
        ensures { self.new ≡ cut_pool self.old end used }
    {
        self.units.truncate(end as usize);
        self.used = used;
    }
}

// The places from which and up to which the span lies within a pool of so many units.
fn within(s: Span, length: usize) -> (usize, usize)
    ensures start { result.0 ≡ min s.start result.1 }
    ensures end { result.1 ≡ min (s.start + s.count) length }
{
    let end = (s.start as usize + s.count as usize).min(length);
    ((s.start as usize).min(end), end)
}

// Has room for so many units more. What is taken is half as much as there is beside them, so that names past those that a
// pool has room for are not moved for each of them.
fn reserve_more(units: &mut Vec<u16>, more: usize) -> Result<(), NoMemory>
    requires { length units.old.items + more < 2 ^ 32 }
    ensures same { units.new.items ≡ units.old.items }
    ensures kept { vec_capacity units.old ≤ vec_capacity units.new }
    ensures room { OnOk result (length units.old.items + more ≤ vec_capacity units.new) }
{
    let len = units.len();
    if more > units.capacity() - len {
        units.reserve_exact(more + len / 2)?;
    }
    Ok(())
}

// Puts the units of all fixed texts, one after another, where none are.
#[tactic(auto, unfolding(crate::specs::FixedTexts::fixed_units, crate::specs::FixedTable::fixed_texts))]
fn push_fixed(units: &mut Vec<u16>)
    requires none { units.old.items ≡ [] }
    requires room { fixed_size ≤ vec_capacity units.old }
    ensures units { units.new.items ≡ fixed_units }
    ensures room { vec_capacity units.new ≡ vec_capacity units.old }
{
    push_all(units, &FIXED_TEXTS);
}

fn push_all(units: &mut Vec<u16>, texts: &[FixedText])
    requires room { length units.old.items + length (flat_map text_of texts.now)
        ≤ vec_capacity units.old }
    ensures units { units.new.items ≡ units.old.items ++ flat_map text_of texts.now }
    ensures room { vec_capacity units.new ≡ vec_capacity units.old }
{
    for fixed in texts {
        push_ascii(units, fixed.text());
    }
}

fn push_ascii(units: &mut Vec<u16>, text: &str)
    requires room { length units.old.items + length text.now ≤ vec_capacity units.old }
    ensures units { units.new.items ≡ units.old.items ++ text.now }
    ensures room { vec_capacity units.new ≡ vec_capacity units.old }
{
    for byte in text.as_bytes() {
        units.push_reserved(u16::from(*byte));
    }
}
