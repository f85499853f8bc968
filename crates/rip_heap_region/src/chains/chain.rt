ghost use Rattle.std.specs.Prelude.{◌≡◌, ◌≢◌, ℕ, ◌+◌, ◌-◌, ◌<◌, ◌∷◌, ◌++◌, List, [], Some, length, map, remove, slice_get, slice_set};
ghost use Rattle.rip_base.specs.declared.value.Value.{Value};
ghost use Rattle.rip_heap_region.specs.declared.pages.for_rows.Row.TheVariants.{Properties};
ghost use Rattle.rip_heap_region.specs.Pages.{filled, with_row};
ghost use Rattle.rip_heap_region.specs.Chains.{AreChains, AreHung, IfOneOf, IsChain, SameLinks, places_of, properties_of, with_value};

use crate::pages::{Pages, Property, Row, Slot};
use rip_base::Value;

/// The properties of one object: where the first and the last one stand, and how many there are. Where there are none the
/// two places say nothing.
#[derive(Clone, Copy, Debug)]
pub struct Chain {
    pub first: u32,
    pub last: u32,
    pub count: u32,
}

/// Where the property of this number stands, in the order of making. Where the chain has no gap, as that of an object that
/// was made at once, this is known without a walk.
pub fn nth(pages: &Pages, chain: Chain, number: u32) -> Option<u32>
    requires chain { IsChain pages.now.properties chain }
    ensures { result ≡ slice_get (places_of pages.now.properties chain) number }
{
    if number >= chain.count {
        return None;
    }
    let mut at = chain.first;
    let mut passed = 0;
    // As soon as no place is left out from here on, the rest is counted.
    while passed < number && chain.last - at > chain.count - 1 - passed {
        at = pages.get(Row::Properties, at).next;
        passed += 1;
    }
    Some(at + (number - passed))
}

/// Puts a property behind those of the chain.
pub fn push(pages: &mut Pages, chain: Chain, property: Property) -> Chain
    requires room { filled pages.old < pages.old.room }
    requires chain { IsChain pages.old.properties chain }
    ensures row { pages.new ≡ with_row Properties pages.new.properties pages.old }
    ensures one { length pages.new.properties ≡ length pages.old.properties + 1 }
    ensures links { SameLinks pages.old.properties pages.new.properties }
    ensures chain { IsChain pages.new.properties result }
    ensures count { result.count ≡ chain.count + 1 }
    ensures places { places_of pages.new.properties result
        ≡ places_of pages.old.properties chain ++ length pages.old.properties ∷ [] }
    ensures properties { properties_of pages.new.properties result
        ≡ properties_of pages.old.properties chain ++ property ∷ [] }
    ensures all { (chains : List Chain) (at : ℕ) → slice_get chains at ≡ Some chain
        → AreChains chains pages.old.properties
        → AreHung (slice_set chains at result) pages.new.properties
        (slice_set (map (places_of pages.old.properties) chains) at
        (places_of pages.old.properties chain ++ length pages.old.properties ∷ []))
        (slice_set (map (properties_of pages.old.properties) chains) at
        (properties_of pages.old.properties chain ++ property ∷ [])) }
{
    pages.push(
        Row::Properties,
        Slot {
            value: property.value,
            name: property.name,
            next: 0,
            link: 0,
        },
    );
    let place = pages.len(Row::Properties) - 1;
    if chain.count == 0 {
        return Chain {
            first: place,
            last: place,
            count: 1,
        };
    }
    pages.set_next(Row::Properties, chain.last, place);
    Chain {
        first: chain.first,
        last: place,
        count: chain.count + 1,
    }
}

/// Gives the property of that number, which stands at this place, the value.
pub fn set_value(pages: &mut Pages, place: u32, value: Value)
    requires within { place < length pages.old.properties }
    ensures row { pages.new ≡ with_row Properties pages.new.properties pages.old }
    ensures size { length pages.new.properties ≡ length pages.old.properties }
    ensures links { SameLinks pages.old.properties pages.new.properties }
    ensures all { (chains : List Chain) (at number : ℕ) (chain : Chain) → slice_get chains at ≡ Some chain
        → slice_get (places_of pages.old.properties chain) number ≡ Some place
        → AreChains chains pages.old.properties
        → AreHung chains pages.new.properties
        (map (places_of pages.old.properties) chains)
        (slice_set (map (properties_of pages.old.properties) chains) at
        (with_value (properties_of pages.old.properties chain) number value)) }
{
    pages.set_value(Row::Properties, place, value);
}

/// Takes the property that stands at this place out of the chain. Its slot is not used again.
pub fn unlink(pages: &mut Pages, chain: Chain, place: u32) -> Chain
    requires chain { IsChain pages.old.properties chain }
    requires among { IfOneOf place (places_of pages.old.properties chain) }
    ensures row { pages.new ≡ with_row Properties pages.new.properties pages.old }
    ensures size { length pages.new.properties ≡ length pages.old.properties }
    ensures links { SameLinks pages.old.properties pages.new.properties }
    ensures chain { IsChain pages.new.properties result }
    ensures count { result.count ≡ chain.count - 1 }
    ensures all { (chains : List Chain) (at number : ℕ) → slice_get chains at ≡ Some chain
        → slice_get (places_of pages.old.properties chain) number ≡ Some place
        → AreChains chains pages.old.properties
        → AreHung (slice_set chains at result) pages.new.properties
        (slice_set (map (places_of pages.old.properties) chains) at
        (remove (places_of pages.old.properties chain) number))
        (slice_set (map (properties_of pages.old.properties) chains) at
        (remove (properties_of pages.old.properties chain) number)) }
{
    let next = pages.get(Row::Properties, place).next;
    if place == chain.first {
        return Chain {
            first: next,
            last: chain.last,
            count: chain.count - 1,
        };
    }
    let before = place_before(pages, chain, place);
    pages.set_next(Row::Properties, before, next);
    Chain {
        first: chain.first,
        last: if place == chain.last {
            before
        } else {
            chain.last
        },
        count: chain.count - 1,
    }
}

// The place before that one, which is not the first of the chain.
fn place_before(pages: &Pages, chain: Chain, place: u32) -> u32
    requires chain { IsChain pages.now.properties chain }
    requires among { IfOneOf place (places_of pages.now.properties chain) }
    requires later { place ≢ chain.first }
    ensures { (number : ℕ) → slice_get (places_of pages.now.properties chain) number ≡ Some place
        → slice_get (places_of pages.now.properties chain) (number - 1) ≡ Some result }
{
    let mut at = chain.first;
    let mut next = pages.get(Row::Properties, at).next;
    while next != place {
        at = next;
        next = pages.get(Row::Properties, at).next;
    }
    at
}
