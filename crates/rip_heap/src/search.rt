ghost use Rattle.std.specs.Prelude.{◌≡◌, ℕ, List, ◌+◌, ◌<◌, ◌≤◌, ◌^◌, ◌∷◌, ◌++◌, [], length, vec_capacity, IfSome};
ghost use Rattle.rip_values.specs.Pool.{text_at};
ghost use Rattle.rip_heap.specs.Borders.{IsLongest, IsTable};
ghost use Rattle.rip_heap.specs.Search.{first_place, first_place_from};

use crate::heap::Heap;
use rip_base::Span;
use std::marker::Model;

/// The row in which the table of a pattern is written when the pattern is looked for. It is reserved when it is made,
/// so that no search takes memory. Contracts see how long a pattern it has room for.
#[derive(Debug, Drop)]
pub struct SearchTable {
    entries: Vec<u32>,
    longest: u32,
}

impl Model for SearchTable {
    ghost use Rattle.std.specs.Prelude.{ℕ, ◌≤◌, vec_capacity};

    ghost Value = { ℕ };

    ghost view = { λ t. t.longest };

    ghost invariant = { λ t. t.longest ≤ vec_capacity t.entries };
}

impl SearchTable {
    /// A table of patterns of at most so many units, in that memory.
    pub fn of(entries: Vec<u32>, longest: u32) -> SearchTable
        requires { longest ≤ vec_capacity entries }
        ensures { result ≡ longest }
    {
        SearchTable { entries, longest }
    }

    /// The first place of the text at which the pattern stands, found in time linear in both (Knuth, Morris and Pratt).
    /// A pattern longer than the table, which only a text of the page itself can be, is tried place by place.
    pub fn first_place(&mut self, text: &[u16], pattern: &[u16]) -> Option<usize>
        ensures place { result ≡ first_place pattern.now text.now }
        ensures within { IfSome result (λ place. place ≤ length text.now) }
        ensures same { self.new ≡ self.old }
    {
        if pattern.is_empty() {
            return Some(0);
        }
        if pattern.len() > text.len() {
            return None;
        }
        if pattern.len() > self.longest as usize {
            return place_by_place(text, pattern);
        }
        table_of(&mut self.entries, pattern);
        place_by(text, pattern, &self.entries)
    }
}

impl Heap {
    /// The first place of a text, from a place on, at which the pattern stands. It takes no memory.
    pub fn place_in_text(&mut self, text: Span, from: u32, pattern: &[u16]) -> Option<u32>
        ensures place { result
            ≡ first_place_from pattern.now (text_at self.old.pool text) from }
        ensures same { self.new ≡ self.old }
    {
        let parts = &mut *self.parts;
        place_from(
            &mut parts.table,
            parts.named.pool().get(text),
            from,
            pattern,
        )
    }

    /// The same of a pattern that is a text of the heap.
    pub fn place_of_text(&mut self, text: Span, from: u32, pattern: Span) -> Option<u32>
        ensures place { result
            ≡ first_place_from (text_at self.old.pool pattern) (text_at self.old.pool text) from }
        ensures same { self.new ≡ self.old }
    {
        let parts = &mut *self.parts;
        let pool = parts.named.pool();
        place_from(&mut parts.table, pool.get(text), from, pool.get(pattern))
    }
}

fn place_from(table: &mut SearchTable, text: &[u16], from: u32, pattern: &[u16]) -> Option<u32>
    requires { length text.now < 2 ^ 32 }
    ensures place { result ≡ first_place_from pattern.now text.now from }
    ensures same { table.new ≡ table.old }
{
    let start = (from as usize).min(text.len());
    let place = table.first_place(&text[start..], pattern)?;
    Some(from + place as u32)
}

// The first place, tried one by one.
fn place_by_place(text: &[u16], pattern: &[u16]) -> Option<usize>
    requires { 0 < length pattern.now }
    ensures place { result ≡ first_place pattern.now text.now }
    ensures within { IfSome result (λ place. place ≤ length text.now) }
{
    for place in 0..text.len() {
        if text[place..].starts_with(pattern) {
            return Some(place);
        }
    }
    None
}

// Writes the table: of each beginning of the pattern the length of the longest other one at its end.
fn table_of(table: &mut Vec<u32>, pattern: &[u16])
    requires some { 0 < length pattern.now }
    requires room { length pattern.now ≤ vec_capacity table.old }
    requires bound { length pattern.now < 2 ^ 32 }
    ensures table { IsTable pattern.now table.new.items }
    ensures count { length table.new.items ≡ length pattern.now }
    ensures room { vec_capacity table.new ≡ vec_capacity table.old }
{
    table.clear();
    table.push_reserved(0);
    let mut matched = 0;
    for unit in &pattern[1..] {
        matched = advanced(pattern, table, matched, *unit);
        table.push_reserved(matched as u32);
    }
}

// The first place, by the pattern's table.
fn place_by(text: &[u16], pattern: &[u16], table: &[u32]) -> Option<usize>
    requires some { 0 < length pattern.now }
    requires table { IsTable pattern.now table.now }
    requires count { length table.now ≡ length pattern.now }
    ensures place { result ≡ first_place pattern.now text.now }
    ensures within { IfSome result (λ p. p ≤ length text.now) }
{
    let mut matched = 0;
    for (i, unit) in text.iter().enumerate() {
        matched = advanced(pattern, table, matched, *unit);
        if matched == pattern.len() {
            return Some(i + 1 - matched);
        }
    }
    None
}

// The length of the longest beginning of the pattern at the end of a text with one unit more, from that of the text.
fn advanced(pattern: &[u16], table: &[u32], matched: usize, unit: u16) -> usize
    requires within { matched < length pattern.now }
    requires known { matched ≤ length table.now }
    requires table { IsTable pattern.now table.now }
    ensures { (text : List ℕ) → IsLongest pattern.now text matched
        → IsLongest pattern.now (text ++ unit ∷ []) result }
{
    let mut kept = matched;
    while kept > 0 {
        if pattern[kept] == unit {
            return kept + 1;
        }
        kept = table[kept - 1] as usize;
    }
    if pattern[0] == unit { 1 } else { 0 }
}
