ghost use Rattle.std.specs.Prelude.{◌≡◌, ℕ, ◌-◌, ◌<◌, ◌^◌, ◌↔◌, [], IsTrue, Some, length, option_and_then, remove, slice_get, take, true};
ghost use Rattle.rip_values.specs.Pool.{Texts};
ghost use Rattle.rip_heap_region.specs.declared.pages.for_rows.Row.TheVariants.{Properties};
ghost use Rattle.rip_heap_region.specs.Pages.{with_row};
ghost use Rattle.rip_heap_region.specs.Chains.{IfOneOf, IsChain, OnlyLinks, places_of, properties_of};
ghost use Rattle.rip_heap_region.specs.Names.{place_of};
ghost use Rattle.rip_heap_region.specs.Blocks.{OthersStay, buckets_at};
ghost use Rattle.rip_heap_region.specs.NameIndex.{IsIndexAt, IsPlaced, OthersKeepLinks};

use crate::buckets::blocks::IndexBlocks;
use crate::buckets::index::relink_chain;
use crate::buckets::memory::IndexMemory;
use crate::buckets::names::{bucket_of, has_text, number_at};
use crate::chains::Chain;
use crate::pages::{Pages, Row};
use rip_base::Span;
use rip_values::Pool;

/// How many properties an object has before their names are worth an index.
const INDEXED_FROM: u32 = 16;

/// How many properties there are for each bucket at most.
const MOST_OF_BUCKET: u32 = 6;

/// The indexes of all objects that have one. An object knows its own by a number, 0 for none; one that was dropped, or whose
/// place is another's by now, is none.
#[derive(Debug, Drop)]
pub struct NameIndexes {
    pub blocks: IndexBlocks,
}

impl NameIndexes {
    /// No indexes, in that memory.
    pub fn of(memory: IndexMemory) -> NameIndexes
        ensures { (i owner : ℕ) → buckets_at result.blocks i owner ≡ [] }
    {
        NameIndexes {
            blocks: IndexBlocks::of(memory),
        }
    }

    /// Whether that object has an index.
    pub fn has(&self, index: u32, owner: u32) -> bool
        ensures { IsTrue result ↔ (0 < length (buckets_at self.now.blocks index owner)) }
    {
        self.blocks.count(index, owner) > 0
    }

    /// Drops all indexes.
    pub fn clear(&mut self)
        ensures { (i owner : ℕ) → buckets_at self.new.blocks i owner ≡ [] }
    {
        self.blocks.clear();
    }

    /// Where the first property of the chain stands that has the name.
    pub fn find(
        &self,
        pool: &Pool,
        pages: &Pages,
        chain: Chain,
        index: u32,
        owner: u32,
        name: Span,
    ) -> Option<u32>
        requires chain { IsChain pages.now.properties chain }
        requires index { IsPlaced pool.now pages.now.properties (places_of pages.now.properties chain)
            (properties_of pages.now.properties chain) (buckets_at self.now.blocks index owner) }
        ensures { result ≡ option_and_then (slice_get (places_of pages.now.properties chain))
            (place_of pool.now name (properties_of pages.now.properties chain)) }
    {
        let buckets = self.blocks.buckets(index, owner);
        let text = pool.get(name);
        let mut left = number_at(buckets, bucket_of(text, buckets.len() as u32));
        let mut found = 0;
        while left > 0 {
            let slot = pages.get(Row::Properties, left - 1);
            if has_text(pool, slot.name, name, text) {
                found = left;
            }
            left = slot.link;
        }
        if found > 0 { Some(found - 1) } else { None }
    }

    /// Takes up the last property of the chain. The number of the index is given back; an index that cannot be had is no
    /// refusal.
    pub fn renew(
        &mut self,
        pool: &Pool,
        pages: &mut Pages,
        chain: Chain,
        index: u32,
        owner: u32,
    ) -> u32
        requires some { 0 < chain.count }
        requires chain { IsChain pages.old.properties chain }
        requires number { index < 2 ^ 28 }
        requires index { IsIndexAt pool.now pages.old.properties
            (take (chain.count - 1) (places_of pages.old.properties chain))
            (take (chain.count - 1) (properties_of pages.old.properties chain))
            self.old.blocks index owner }
        ensures row { pages.new ≡ with_row Properties pages.new.properties pages.old }
        ensures only { OnlyLinks pages.old.properties pages.new.properties }
        ensures links { OthersKeepLinks (places_of pages.old.properties chain) pages.old.properties
            pages.new.properties }
        ensures number { result < 2 ^ 28 }
        ensures index { IsIndexAt pool.now pages.new.properties (places_of pages.old.properties chain)
            (properties_of pages.old.properties chain) self.new.blocks result owner }
        ensures others { OthersStay owner self.old.blocks self.new.blocks }
    {
        if self.extend(pool, pages, chain, index, owner) {
            return index;
        }
        self.fill(pool, pages, chain, owner).unwrap_or(0)
    }

    /// Drops the name of the property of the chain that stands at this place, which will be taken away.
    pub fn drop_name(&mut self, pages: &mut Pages, chain: Chain, index: u32, owner: u32, place: u32)
        requires chain { IsChain pages.old.properties chain }
        requires among { IfOneOf place (places_of pages.old.properties chain) }
        ensures row { pages.new ≡ with_row Properties pages.new.properties pages.old }
        ensures only { OnlyLinks pages.old.properties pages.new.properties }
        ensures links { OthersKeepLinks (places_of pages.old.properties chain) pages.old.properties
            pages.new.properties }
        ensures index { (pool : Texts) (number : ℕ)
            → slice_get (places_of pages.old.properties chain) number ≡ Some place
            → IsIndexAt pool pages.old.properties (places_of pages.old.properties chain)
            (properties_of pages.old.properties chain) self.old.blocks index owner
            → IsIndexAt pool pages.new.properties
            (remove (places_of pages.old.properties chain) number)
            (remove (properties_of pages.old.properties chain) number) self.new.blocks index owner }
        ensures others { OthersStay owner self.old.blocks self.new.blocks }
    {
        if self.blocks.count(index, owner) == 0 {
            return;
        }
        let link = pages.get(Row::Properties, place).link;
        relink_chain(pages, chain, place, link);
        self.blocks.relink(index, owner, place, link);
    }

    // Takes up the last property of the chain, if there is an index and it has buckets enough, and tells whether that was
    // done, or none is worth its making.
    fn extend(
        &mut self,
        pool: &Pool,
        pages: &mut Pages,
        chain: Chain,
        index: u32,
        owner: u32,
    ) -> bool
        requires some { 0 < chain.count }
        requires chain { IsChain pages.old.properties chain }
        requires index { IsIndexAt pool.now pages.old.properties
            (take (chain.count - 1) (places_of pages.old.properties chain))
            (take (chain.count - 1) (properties_of pages.old.properties chain))
            self.old.blocks index owner }
        ensures row { pages.new ≡ with_row Properties pages.new.properties pages.old }
        ensures only { OnlyLinks pages.old.properties pages.new.properties }
        ensures links { OthersKeepLinks (places_of pages.old.properties chain) pages.old.properties
            pages.new.properties }
        ensures index { result ≡ true → IsIndexAt pool.now pages.new.properties
            (places_of pages.old.properties chain) (properties_of pages.old.properties chain)
            self.new.blocks index owner }
        ensures others { OthersStay owner self.old.blocks self.new.blocks }
    {
        let buckets = self.blocks.count(index, owner);
        if buckets == 0 {
            return chain.count <= INDEXED_FROM;
        }
        if chain.count > buckets.saturating_mul(MOST_OF_BUCKET) {
            return false;
        }
        let name = pages.get(Row::Properties, chain.last).name;
        self.take_up(pool, pages, index, owner, chain.last, name)
            .is_ok()
    }
}
