ghost use Rattle.std.specs.Prelude.{◌≡◌, find};
ghost use Rattle.rip_dom.specs.Lists.{list_at};
ghost use Rattle.rip_dom.specs.Names.{attribute_of, is_named, is_small, without_attribute};

use crate::dom::Dom;
use crate::lists::{LinkedLists, ends_at, item_at};
use crate::walks::pair_at;
use rip_base::{Span, small_unit};
use rip_values::Pool;

impl Dom {
    /// The value of the node's attribute of this name, which counts in small letters.
    pub fn attribute(&self, pool: &Pool, n: u32, name: &[u16]) -> Option<Span>
        ensures { result ≡ attribute_of pool.now self.now n name.now }
    {
        match self.attributes.find_named(&self.pairs, pool, n, name) {
            Some(number) => Some(pair_at(&self.pairs, number).1),
            None => None,
        }
    }

    /// Takes the node's attribute of this name away, if it has one. No record is given back.
    pub fn remove_attribute(&mut self, pool: &Pool, n: u32, name: &[u16])
        ensures { self.new ≡ without_attribute pool.now self.old n name.now }
    {
        self.attributes.are_listed();
        match self.attributes.find_named(&self.pairs, pool, n, name) {
            Some(number) => self.attributes.remove(number),
            None => {}
        }
    }
}

impl LinkedLists {
    /// The first item of the list that is an attribute of this name.
    pub fn find_named(
        &self,
        pairs: &Vec<(Span, Span)>,
        pool: &Pool,
        list: u32,
        name: &[u16],
    ) -> Option<u32>
        ensures { result ≡
            find (is_named pool.now pairs.now.items name.now) (list_at self.now.lists list) }
    {
        let mut at = ends_at(&self.ends, list).first;
        for _i in 0..self.items.len() {
            match at {
                Some(n) => {
                    if is_named(pairs, pool, n, name) {
                        return Some(n);
                    }
                    at = item_at(&self.items, n).next;
                }
                None => return None,
            }
        }
        None
    }
}

fn is_named(pairs: &Vec<(Span, Span)>, pool: &Pool, n: u32, name: &[u16]) -> bool
    ensures { result ≡ is_named pool.now pairs.now.items name.now n }
{
    is_small(pool.get(pair_at(pairs, n).0), name)
}

/// Whether the text is the name in small letters.
pub fn is_small(text: &[u16], name: &[u16]) -> bool
    ensures { result ≡ is_small text.now name.now }
{
    if text.len() != name.len() {
        return false;
    }
    for i in 0..text.len() {
        if text[i] != small_unit(name[i]) {
            return false;
        }
    }
    true
}
