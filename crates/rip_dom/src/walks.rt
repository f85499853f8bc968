ghost use Rattle.std.specs.Prelude.{◌≡◌, ◌==◌, ◌&&◌, ◌||◌, not, slice_get};
ghost use Rattle.std.specs.List.{list_any};
ghost use Rattle.rip_dom.specs.Document.{pair_at, record_at};
ghost use Rattle.rip_dom.specs.Lists.{list_at, is_place};
ghost use Rattle.rip_dom.specs.Walks.{is_other_element};

use crate::dom::NodeRecord;
use crate::kinds::is_element;
use crate::lists::{LinkedLists, ends_at, item_at};
use rip_base::{NodeKind, Span};

/// The record of this number; past the last it tells nothing.
pub(crate) fn record_at(records: &Vec<NodeRecord>, n: u32) -> NodeRecord
    ensures { result ≡ record_at records.now.items n }
{
    match records.get(n as usize) {
        Some(found) => *found,
        None => NodeRecord {
            kind: NodeKind::Text,
            name: None,
            text: None,
        },
    }
}

impl LinkedLists {
    /// Whether an element other than these two stands in the list.
    pub fn has_other_element(
        &self,
        records: &Vec<NodeRecord>,
        list: u32,
        child: u32,
        old: Option<u32>,
    ) -> bool
        ensures { result ≡
            list_any (is_other_element records.now.items child old) (list_at self.now.lists list) }
    {
        let mut at = ends_at(&self.ends, list).first;
        for _i in 0..self.items.len() {
            match at {
                Some(n) => {
                    if is_other_element(records, n, child, old) {
                        return true;
                    }
                    at = item_at(&self.items, n).next;
                }
                None => return false,
            }
        }
        false
    }

    /// The item at this place of the list.
    pub fn at_place(&self, list: u32, place: u32) -> Option<u32>
        ensures { result ≡ slice_get (list_at self.now.lists list) place }
    {
        let mut at = ends_at(&self.ends, list).first;
        for _i in 0..place {
            match at {
                Some(n) => at = item_at(&self.items, n).next,
                None => return None,
            }
        }
        at
    }
}

/// The name and the value of the attribute of this number; past the last they are empty.
pub(crate) fn pair_at(pairs: &Vec<(Span, Span)>, n: u32) -> (Span, Span)
    ensures { result ≡ pair_at pairs.now.items n }
{
    let empty = Span { start: 0, count: 0 };
    match pairs.get(n as usize) {
        Some(found) => *found,
        None => (empty, empty),
    }
}

fn is_other_element(records: &Vec<NodeRecord>, n: u32, child: u32, old: Option<u32>) -> bool
    ensures { result ≡ is_other_element records.now.items child old n }
{
    is_element(record_at(records, n).kind) && n != child && !is_place(old, n)
}

/// Whether the place is this item.
pub(crate) fn is_place(at: Option<u32>, n: u32) -> bool
    ensures { result ≡ is_place at n }
{
    match at {
        Some(place) => n == place,
        None => false,
    }
}
