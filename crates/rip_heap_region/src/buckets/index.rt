ghost use Rattle.std.specs.Prelude.{◌≡◌, ◌≢◌, ℕ, ◌<◌, ◌+◌, ◌^◌, IfOk, OnOk, Some, length, slice_get, slice_index, slice_set, take};
ghost use Rattle.rip_heap_region.specs.declared.pages.for_rows.Row.TheVariants.{Properties};
ghost use Rattle.rip_heap_region.specs.Pages.{slot_at, with_row};
ghost use Rattle.rip_heap_region.specs.declared.chains.chain.Chain.{Chain};
ghost use Rattle.rip_heap_region.specs.Chains.{IsChain, OnlyLinks, places_of, properties_of};
ghost use Rattle.rip_heap_region.specs.Blocks.{OthersStay, buckets_at, relinked};
ghost use Rattle.rip_heap_region.specs.NameIndex.{IsPlaced, OthersKeepLinks};

use crate::buckets::blocks::relinked;
use crate::buckets::indexes::NameIndexes;
use crate::buckets::names::{bucket_of, lies_in, number_at};
use crate::chains::Chain;
use crate::pages::{Pages, Row};
use rip_base::{NoMemory, Span};
use rip_values::Pool;

// One index: properties whose names fall into one bucket hang together, the last made first. A number in a bucket or a link
// is where one stands, counted from 1, and 0 is none.

impl NameIndexes {
    /// Takes up the property that stands at this place, where the owner's index is that of those before it in its chain.
    /// Where its name does not lie in the pool, it is refused.
    pub fn take_up(
        &mut self,
        pool: &Pool,
        pages: &mut Pages,
        index: u32,
        owner: u32,
        place: u32,
        name: Span,
    ) -> Result<(), NoMemory>
        requires some { 0 < length (buckets_at self.old.blocks index owner) }
        requires within { place < length pages.old.properties }
        requires name { name ≡ (slot_at pages.old.properties place).name }
        ensures row { pages.new ≡ with_row Properties pages.new.properties pages.old }
        ensures only { OnlyLinks pages.old.properties pages.new.properties }
        ensures links { (p : ℕ) → p ≢ place
            → (slot_at pages.new.properties p).link ≡ (slot_at pages.old.properties p).link }
        ensures index { OnOk result ((chain : Chain) (number : ℕ)
            → IsChain pages.old.properties chain
            → slice_get (places_of pages.old.properties chain) number ≡ Some place
            → IsPlaced pool.now pages.old.properties
            (take number (places_of pages.old.properties chain))
            (take number (properties_of pages.old.properties chain))
            (buckets_at self.old.blocks index owner)
            → IsPlaced pool.now pages.new.properties
            (take (number + 1) (places_of pages.old.properties chain))
            (take (number + 1) (properties_of pages.old.properties chain))
            (buckets_at self.new.blocks index owner)) }
        ensures others { OthersStay owner self.old.blocks self.new.blocks }
    {
        if place == u32::MAX || !lies_in(pool, name) {
            return Err(NoMemory);
        }
        let buckets = self.blocks.buckets(index, owner);
        let bucket = bucket_of(pool.get(name), buckets.len() as u32);
        let last = number_at(buckets, bucket);
        pages.set_link(Row::Properties, place, last);
        self.blocks.set_bucket(index, owner, bucket, place + 1);
        Ok(())
    }

    /// Makes a new index of the properties of the chain for the owner, with half as many buckets, and tells its number.
    /// Where there is no room for it, or one of the names does not lie in the pool, there is none.
    pub fn fill(
        &mut self,
        pool: &Pool,
        pages: &mut Pages,
        chain: Chain,
        owner: u32,
    ) -> Result<u32, NoMemory>
        requires chain { IsChain pages.old.properties chain }
        ensures row { pages.new ≡ with_row Properties pages.new.properties pages.old }
        ensures only { OnlyLinks pages.old.properties pages.new.properties }
        ensures links { OthersKeepLinks (places_of pages.old.properties chain) pages.old.properties
            pages.new.properties }
        ensures number { IfOk result (λ index. index < 2 ^ 28) }
        ensures index { IfOk result (λ index. IsPlaced pool.now pages.new.properties
            (places_of pages.old.properties chain) (properties_of pages.old.properties chain)
            (buckets_at self.new.blocks index owner)) }
        ensures others { OthersStay owner self.old.blocks self.new.blocks }
    {
        if chain.count < 2 {
            return Err(NoMemory);
        }
        let index = self.blocks.open(owner, chain.count / 2)?;
        let mut place = chain.first;
        for _number in 0..chain.count {
            let slot = *pages.get(Row::Properties, place);
            self.take_up(pool, pages, index, owner, place, slot.name)?;
            place = slot.next;
        }
        Ok(index)
    }
}

/// In each slot of the chain whose link stands for this place puts the other one.
pub fn relink_chain(pages: &mut Pages, chain: Chain, place: u32, link: u32)
    requires chain { IsChain pages.old.properties chain }
    ensures row { pages.new ≡ with_row Properties pages.new.properties pages.old }
    ensures only { OnlyLinks pages.old.properties pages.new.properties }
    ensures links { OthersKeepLinks (places_of pages.old.properties chain) pages.old.properties
        pages.new.properties }
    ensures each { (i : ℕ) → i < length (places_of pages.old.properties chain)
        → (slot_at pages.new.properties (slice_index (places_of pages.old.properties chain) i)).link
        ≡ relinked place link
        (slot_at pages.old.properties (slice_index (places_of pages.old.properties chain) i)).link }
{
    let mut at = chain.first;
    for _number in 0..chain.count {
        at = relink_slot(pages, at, place, link);
    }
}

// The same for one slot. The place of the next one is given back.
fn relink_slot(pages: &mut Pages, at: u32, place: u32, link: u32) -> u32
    requires within { at < length pages.old.properties }
    ensures next { result ≡ (slot_at pages.old.properties at).next }
    ensures slot { pages.new ≡ with_row Properties (slice_set pages.old.properties at
        (record (slot_at pages.old.properties at)
        { link = relinked place link (slot_at pages.old.properties at).link })) pages.old }
{
    let slot = *pages.get(Row::Properties, at);
    let new = relinked(slot.link, place, link);
    if new != slot.link {
        pages.set_link(Row::Properties, at, new);
    }
    slot.next
}
