ghost use Rattle.std.specs.Prelude.{◌≡◌, []};
ghost use Rattle.rip_heap_region.specs.Chains.{IsChain, properties_of};

use crate::chains::chain::Chain;
use crate::pages::{Pages, Property, Row};
use std::marker::Model;

/// An iterator over the properties of an object, in the order of making. It stands for the list of those that are left.
#[derive(Debug, Drop)]
pub struct OwnProperties<'p> {
    pages: &'p Pages,
    at: u32,
    left: u32,
}

impl<'p> Model for OwnProperties<'p> {
    ghost use Rattle.std.specs.Prelude.{List, length};
    ghost use Rattle.rip_heap_region.specs.declared.pages.property.Property.{Property};
    ghost use Rattle.rip_heap_region.specs.Chains.{Rising, properties_at, walk};

    ghost Value = { List Property };

    ghost view = { λ own. properties_at own.pages.now.properties (walk own.pages.now.properties own.at own.left) };

    ghost invariant = { λ own. Rising 0 (length own.pages.now.properties) (walk own.pages.now.properties own.at own.left) };
}

impl<'p> OwnProperties<'p> {
    /// Those of a chain.
    pub fn of(pages: &'p Pages, chain: Chain) -> OwnProperties<'p>
        requires chain { IsChain pages.now.properties chain }
        ensures { result ≡ properties_of pages.now.properties chain }
    {
        OwnProperties {
            pages,
            at: chain.first,
            left: chain.count,
        }
    }

    /// None at all.
    pub fn none(pages: &'p Pages) -> OwnProperties<'p>
        ensures { result ≡ [] }
    {
        OwnProperties {
            pages,
            at: 0,
            left: 0,
        }
    }
}

impl<'p> Iterator for OwnProperties<'p> {
    ghost use Rattle.std.specs.Iterator.{YieldsFirst, item_count};

    type Item = Property;

    ghost next_gives = { YieldsFirst (λ own. own) };

    ghost remaining = { item_count (λ own. own) };

    fn next(&mut self) -> Option<Property> {
        if self.left == 0 {
            return None;
        }
        let slot = self.pages.get(Row::Properties, self.at);
        let property = Property {
            name: slot.name,
            value: slot.value,
        };
        self.at = slot.next;
        self.left -= 1;
        Some(property)
    }
}
