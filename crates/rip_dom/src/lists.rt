ghost use Rattle.std.specs.Prelude.{◌≡◌, ◌<◌, ◌∷◌, ◌++◌, [], IfOk, IfSome, IsSome, length, map, slice_set, option_and_then, vec_capacity};
ghost use Rattle.rip_dom.specs.Lists.{list_at, owner_at, without, with_item, first_of, last_or, item_behind, item_in_front};
ghost use Rattle.rip_dom.specs.Linked.{AreKnown, AreListed, ends_at, item_at, backward, ends_joined, items_joined};

use rip_base::NoMemory;
use std::alloc::Global;
use std::marker::Model;

/// The first and the last item of a list.
#[derive(Clone, Copy, Debug)]
pub(crate) struct Ends {
    pub first: Option<u32>,
    pub last: Option<u32>,
}

/// The list in which an item stands, and its neighbours there.
#[derive(Clone, Copy, Debug)]
pub(crate) struct Item {
    pub owner: Option<u32>,
    pub next: Option<u32>,
    pub previous: Option<u32>,
}

/// Lists of numbered items, each linked in both directions. The room for all of them is taken at once, so that no
/// change takes memory.
#[derive(Debug, Drop)]
pub(crate) struct LinkedLists {
    pub(crate) ends: Vec<Ends>,
    pub(crate) items: Vec<Item>,
    pub(crate) limit: u32,
}

impl Model for LinkedLists {
    ghost use Rattle.std.specs.Prelude.{map, vec_capacity};
    ghost use Rattle.rip_dom.specs.Lists.{Lists};
    ghost use Rattle.rip_dom.specs.Linked.{lists_of, AreLinked};

    ghost Value = { Lists };

    ghost view = { λ l. record {
      limit = l.limit;
      lists = lists_of l.ends.items l.items.items;
      owners = map (λ i. i.owner) l.items.items;
    } };

    ghost invariant = { λ l.
        AreLinked l.ends.items l.items.items l.limit (vec_capacity l.ends) (vec_capacity l.items) };
}

impl LinkedLists {
    /// No list and no item yet, and room for so many of each.
    pub fn make(alloc: Global, limit: u32) -> Result<LinkedLists, NoMemory>
        ensures { IfOk result (λ l. l ≡ record { limit = limit; lists = []; owners = [] }) }
    {
        Ok(LinkedLists {
            ends: Vec::with_capacity(alloc, limit as usize)?,
            items: Vec::with_capacity(alloc, limit as usize)?,
            limit,
        })
    }

    /// One list more, which is empty.
    pub fn add_list(&mut self)
        requires { length self.old.lists < self.old.limit }
        ensures { self.new ≡ record self.old { lists = self.old.lists ++ [] ∷ [] } }
    {
        self.ends.push_reserved(Ends {
            first: None,
            last: None,
        });
    }

    /// One item more, which stands in no list.
    pub fn add_item(&mut self)
        requires { length self.old.owners < self.old.limit }
        ensures more { self.new ≡ record self.old { owners = self.old.owners ++ None ∷ [] } }
        ensures known { AreKnown self.old }
    {
        self.items.push_reserved(Item {
            owner: None,
            next: None,
            previous: None,
        });
    }

    /// The list in which the item stands.
    pub fn owner(&self, item: u32) -> Option<u32>
        ensures { result ≡ owner_at self.now.owners item }
    {
        item_at(&self.items, item).owner
    }

    /// The first item of the list.
    pub fn first(&self, list: u32) -> Option<u32>
        ensures { result ≡ first_of (list_at self.now.lists list) }
    {
        ends_at(&self.ends, list).first
    }

    /// The last item of the list.
    pub fn last(&self, list: u32) -> Option<u32>
        ensures { result ≡ last_or None (list_at self.now.lists list) }
    {
        ends_at(&self.ends, list).last
    }

    /// The item behind this one in its list.
    pub fn next(&self, item: u32) -> Option<u32>
        ensures { result ≡ option_and_then
            (λ p. item_behind item (list_at self.now.lists p)) (owner_at self.now.owners item) }
    {
        let found = item_at(&self.items, item);
        match found.owner {
            Some(_) => found.next,
            None => None,
        }
    }

    /// The item in front of this one in its list.
    pub fn previous(&self, item: u32) -> Option<u32>
        ensures { result ≡ option_and_then
            (λ p. item_in_front None item (list_at self.now.lists p)) (owner_at self.now.owners item) }
    {
        let found = item_at(&self.items, item);
        match found.owner {
            Some(_) => found.previous,
            None => None,
        }
    }

    /// Each item is in the list in which it stands, and in no other.
    pub fn are_listed(&self)
        ensures { AreListed self.now }
    {
        let _ends = &self.ends;
    }

    /// Takes the item out of the list in which it stands, if it stands in one.
    pub fn remove(&mut self, item: u32)
        ensures { self.new ≡ record self.old {
          lists = map (without item) self.old.lists;
          owners = slice_set self.old.owners item None;
        } }
    {
        let found = item_at(&self.items, item);
        match found.owner {
            Some(list) => {
                join(
                    &mut self.ends,
                    &mut self.items,
                    list,
                    found.previous,
                    found.next,
                );
                set_owner(&mut self.items, item, None);
            }
            None => {}
        }
    }

    /// Puts the item into the list, before the one at the place, or behind all where no place is given.
    pub fn insert(&mut self, list: u32, item: u32, at: Option<u32>)
        requires list { list < length self.old.lists }
        requires item { item < length self.old.owners }
        requires free { owner_at self.old.owners item ≡ None }
        requires at { IfSome at (λ r. owner_at self.old.owners r ≡ Some list) }
        ensures { self.new ≡ record self.old {
          lists = slice_set self.old.lists list (with_item item at (list_at self.old.lists list));
          owners = slice_set self.old.owners item (Some list);
        } }
    {
        let front = in_front(&self.ends, &self.items, list, at);
        join(&mut self.ends, &mut self.items, list, front, Some(item));
        join(&mut self.ends, &mut self.items, list, Some(item), at);
        set_owner(&mut self.items, item, Some(list));
    }
}

// The ends of the list of this number.
pub(crate) fn ends_at(ends: &Vec<Ends>, list: u32) -> Ends
    ensures { result ≡ ends_at ends.now.items list }
{
    match ends.get(list as usize) {
        Some(found) => *found,
        None => Ends {
            first: None,
            last: None,
        },
    }
}

// The item of this number.
pub(crate) fn item_at(items: &Vec<Item>, item: u32) -> Item
    ensures { result ≡ item_at items.now.items item }
{
    match items.get(item as usize) {
        Some(found) => *found,
        None => Item {
            owner: None,
            next: None,
            previous: None,
        },
    }
}

// The item in front of a place of a list, or the last one where no place is given.
fn in_front(ends: &Vec<Ends>, items: &Vec<Item>, list: u32, at: Option<u32>) -> Option<u32>
    ensures { result ≡ backward ends.now.items items.now.items list at }
{
    match at {
        Some(place) => item_at(items, place).previous,
        None => ends_at(ends, list).last,
    }
}

// Links two neighbours of a list, of which either may be its end.
fn join(
    ends: &mut Vec<Ends>,
    items: &mut Vec<Item>,
    list: u32,
    front: Option<u32>,
    behind: Option<u32>,
)
    requires list { list < length ends.old.items }
    requires front { IfSome front (λ n. n < length items.old.items) }
    requires behind { IfSome behind (λ n. n < length items.old.items) }
    ensures ends { ends.new.items ≡ ends_joined ends.old.items list front behind }
    ensures items { items.new.items ≡ items_joined items.old.items front behind }
    ensures ends_room { vec_capacity ends.new ≡ vec_capacity ends.old }
    ensures items_room { vec_capacity items.new ≡ vec_capacity items.old }
{
    match front {
        Some(n) => set_next(items, n, behind),
        None => set_first(ends, list, behind),
    }
    match behind {
        Some(n) => set_previous(items, n, front),
        None => set_last(ends, list, front),
    }
}

fn set_first(ends: &mut Vec<Ends>, list: u32, first: Option<u32>)
    requires { list < length ends.old.items }
    ensures set { ends.new.items ≡ slice_set ends.old.items list
        (record (ends_at ends.old.items list) { first = first }) }
    ensures room { vec_capacity ends.new ≡ vec_capacity ends.old }
{
    let found = ends_at(ends, list);
    ends[list as usize] = Ends { first, ..found };
}

fn set_last(ends: &mut Vec<Ends>, list: u32, last: Option<u32>)
    requires { list < length ends.old.items }
    ensures set { ends.new.items ≡ slice_set ends.old.items list
        (record (ends_at ends.old.items list) { last = last }) }
    ensures room { vec_capacity ends.new ≡ vec_capacity ends.old }
{
    let found = ends_at(ends, list);
    ends[list as usize] = Ends { last, ..found };
}

fn set_next(items: &mut Vec<Item>, item: u32, next: Option<u32>)
    requires { item < length items.old.items }
    ensures set { items.new.items ≡ slice_set items.old.items item
        (record (item_at items.old.items item) { next = next }) }
    ensures room { vec_capacity items.new ≡ vec_capacity items.old }
{
    let found = item_at(items, item);
    items[item as usize] = Item { next, ..found };
}

fn set_previous(items: &mut Vec<Item>, item: u32, previous: Option<u32>)
    requires { item < length items.old.items }
    ensures set { items.new.items ≡ slice_set items.old.items item
        (record (item_at items.old.items item) { previous = previous }) }
    ensures room { vec_capacity items.new ≡ vec_capacity items.old }
{
    let found = item_at(items, item);
    items[item as usize] = Item { previous, ..found };
}

fn set_owner(items: &mut Vec<Item>, item: u32, owner: Option<u32>)
    requires { item < length items.old.items }
    ensures set { items.new.items ≡ slice_set items.old.items item
        (record (item_at items.old.items item) { owner = owner }) }
    ensures room { vec_capacity items.new ≡ vec_capacity items.old }
{
    let found = item_at(items, item);
    items[item as usize] = Item { owner, ..found };
}
