ghost use Rattle.std.specs.Prelude.{◌≡◌, ◌<◌, if◌then◌else◌, is_some, length, slice_set, vec_capacity};
ghost use Rattle.std.specs.List.{list_all};
ghost use Rattle.rip_dom.specs.Document.{pair_at};
ghost use Rattle.rip_dom.specs.Attributes.{Sets, attribute_refusal, attribute_set, is_attribute_name, is_attribute_unit, with_value};
ghost use Rattle.rip_dom.specs.Names.{attribute_of};

use crate::creation::{DomRefused, INVALID_CHARACTER, is_letter, is_name_unit, keep_name};
use crate::dom::Dom;
use crate::walks::pair_at;
use rip_base::{Limit, Refused, Span};
use rip_values::Pool;
use std::alloc::Global;

impl Dom {
    /// Gives the node's attribute of this name, which counts in small letters, the value. One that is there costs
    /// nothing; a new one comes behind the others.
    pub fn set_attribute(
        &mut self,
        alloc: Global,
        pool: &mut Pool,
        n: u32,
        name: Span,
        value: Span,
    ) -> Result<(), DomRefused>
        requires { n < length self.old.nodes }
        ensures { Sets (attribute_refusal (record { pool = pool.old; tree = self.old }) n name)
            (attribute_set (record { pool = pool.old; tree = self.old }) n name value)
            (record { pool = pool.old; tree = self.old })
            result (record { pool = pool.new; tree = self.new }) }
    {
        if !is_attribute_name(pool.get(name)) {
            return Err(DomRefused::Code(INVALID_CHARACTER));
        }
        if self.set_value(pool, n, pool.get(name), value) {
            return Ok(());
        }
        if self.used() >= self.limit() {
            return Err(DomRefused::Refused(Refused::Limit(Limit::Nodes)));
        }
        match keep_name(alloc, pool, name) {
            Ok(kept) => {
                self.push_attribute(n, kept, value);
                Ok(())
            }
            Err(limit) => Err(DomRefused::Refused(Refused::Limit(limit))),
        }
    }

    // Gives the node's attribute of this name the value, and tells whether it has one.
    fn set_value(&mut self, pool: &Pool, n: u32, name: &[u16], value: Span) -> bool
        ensures found { result ≡ is_some (attribute_of pool.now self.old n name.now) }
        ensures set { self.new ≡
            (if result then with_value pool.now self.old n name.now value else self.old) }
    {
        self.attributes.are_listed();
        match self.attributes.find_named(&self.pairs, pool, n, name) {
            Some(number) => {
                put_value(&mut self.pairs, number, value);
                true
            }
            None => false,
        }
    }
}

// Gives the attribute of this number the value.
fn put_value(pairs: &mut Vec<(Span, Span)>, number: u32, value: Span)
    requires { number < length pairs.old.items }
    ensures set { pairs.new.items ≡ slice_set pairs.old.items number
        ((pair_at pairs.old.items number).0, value) }
    ensures room { vec_capacity pairs.new ≡ vec_capacity pairs.old }
{
    let found = pair_at(pairs, number);
    pairs[number as usize] = (found.0, value);
}

/// Whether the name of an attribute is legal, as pages have them.
pub fn is_attribute_name(name: &[u16]) -> bool
    ensures { result ≡ is_attribute_name name.now }
{
    match name.split_first() {
        Some((first, rest)) => { is_letter(*first) && are_attribute_units(rest) }
        None => false,
    }
}

fn are_attribute_units(units: &[u16]) -> bool
    ensures { result ≡ list_all is_attribute_unit units.now }
{
    units.iter().all(|unit| is_attribute_unit(*unit))
}

fn is_attribute_unit(unit: u16) -> bool
    ensures { result ≡ is_attribute_unit unit }
{
    is_name_unit(unit) || unit == 95 || unit == 58 || unit == 46
}
