ghost use Rattle.std.specs.Prelude.{◌≡◌, ◌+◌, ◌≤◌, OnErr, OnOk, IfErr, IfOk, length, nat_lt, true, false};
ghost use Rattle.std.specs.List.{list_all};
ghost use Rattle.rip_dom.specs.Creation.{Creates, cost_of_name, element_made, element_refusal, is_element_name, is_letter, is_name_unit, kept_name, with_kept};

use crate::dom::{Dom, NodeRecord};
use crate::letters::{Letters, push_in};
use crate::names::is_small;
use rip_base::{Limit, NodeKind, Refused, Span, small_unit};
use rip_values::Pool;
use std::alloc::Global;

/// The code of a refusal where a name is not legal (DOM Level 2 Core, INVALID_CHARACTER_ERR).
pub const INVALID_CHARACTER: u8 = 5;

/// Why a call that makes an element or an attribute is refused.
#[derive(Clone, Copy, Debug, PartialEq)]
pub enum DomRefused {
    Code(u8),
    Refused(Refused),
}

impl Dom {
    /// A new element of this name in small letters, which stands nowhere yet. Capitals make the name a new text.
    pub fn create_element(
        &mut self,
        alloc: Global,
        pool: &mut Pool,
        name: Span,
    ) -> Result<u32, DomRefused>
        ensures { Creates (element_refusal (record { pool = pool.old; tree = self.old }) name)
            (length self.old.nodes)
            (element_made (record { pool = pool.old; tree = self.old }) name)
            (record { pool = pool.old; tree = self.old })
            result (record { pool = pool.new; tree = self.new }) }
    {
        if !is_element_name(pool.get(name)) {
            return Err(DomRefused::Code(INVALID_CHARACTER));
        }
        if self.used() >= self.limit() {
            return Err(DomRefused::Refused(Refused::Limit(Limit::Nodes)));
        }
        match keep_name(alloc, pool, name) {
            Ok(kept) => Ok(self.push_node(NodeRecord {
                kind: NodeKind::Element,
                name: Some(kept),
                text: None,
            })),
            Err(limit) => Err(DomRefused::Refused(Refused::Limit(limit))),
        }
    }

    /// How many nodes and attributes may be made.
    pub fn limit(&self) -> u32
        ensures { result ≡ self.now.limit }
    {
        self.limit
    }
}

// Keeps a name in small letters: one without capitals where it stands, another as a new text.
pub(crate) fn keep_name(alloc: Global, pool: &mut Pool, name: Span) -> Result<Span, Limit>
    ensures span { IfOk result (λ span. span ≡ kept_name pool.old name) }
    ensures kept { OnOk result (pool.new ≡ with_kept pool.old name) }
    ensures fits { OnOk result
        (nat_lt pool.old.limit (pool.old.used + cost_of_name pool.old name) ≡ false) }
    ensures short { OnErr result
        (nat_lt pool.old.limit (pool.old.used + cost_of_name pool.old name) ≡ true) }
    ensures only_units { IfErr result (λ limit. limit ≡ Limit.Units) }
    ensures err { OnErr result (pool.new ≡ pool.old) }
{
    let text = pool.get(name);
    if is_small(text, text) {
        let _free = pool.free();
        return Ok(name);
    }
    if text.len() > pool.free() as usize {
        return Err(Limit::Units);
    }
    Ok(push_in(alloc, pool, name, Letters::Small))
}

/// Whether the name of an element is legal, as pages have them.
pub fn is_element_name(name: &[u16]) -> bool
    ensures { result ≡ is_element_name name.now }
{
    match name.split_first() {
        Some((first, rest)) => is_letter(*first) && are_name_units(rest),
        None => false,
    }
}

fn are_name_units(units: &[u16]) -> bool
    ensures { result ≡ list_all is_name_unit units.now }
{
    units.iter().all(|unit| is_name_unit(*unit))
}

pub(crate) fn is_name_unit(unit: u16) -> bool
    ensures { result ≡ is_name_unit unit }
{
    is_letter(unit) || 48 <= unit && unit <= 57 || unit == 45
}

pub(crate) fn is_letter(unit: u16) -> bool
    ensures { result ≡ is_letter unit }
{
    let small = small_unit(unit);
    97 <= small && small <= 122
}
