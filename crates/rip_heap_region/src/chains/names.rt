ghost use Rattle.std.specs.Prelude.{◌≡◌, option_and_then, slice_get};
ghost use Rattle.rip_values.specs.Pool.{text_at};
ghost use Rattle.rip_heap_region.specs.Chains.{IsChain, places_of, properties_of};
ghost use Rattle.rip_heap_region.specs.Names.{place_of, same_text};

use crate::chains::chain::Chain;
use crate::pages::{Pages, Row};
use rip_base::Span;
use rip_values::Pool;

/// Whether two spans stand for one text. Equal spans are not read.
pub fn same_text(pool: &Pool, a: Span, b: Span) -> bool
    ensures { result ≡ same_text pool.now a b }
{
    a == b || pool.get(a) == pool.get(b)
}

/// Where the first property of the chain stands that has the name.
pub fn find(pool: &Pool, pages: &Pages, chain: Chain, name: Span) -> Option<u32>
    requires chain { IsChain pages.now.properties chain }
    ensures { result ≡ option_and_then (slice_get (places_of pages.now.properties chain))
        (place_of pool.now name (properties_of pages.now.properties chain)) }
{
    let text = pool.get(name);
    let mut at = chain.first;
    let mut passed = 0;
    while passed < chain.count {
        let slot = pages.get(Row::Properties, at);
        if is_named(pool, slot.name, name, text) {
            return Some(at);
        }
        at = slot.next;
        passed += 1;
    }
    None
}

// Whether that span stands for the text of the name. Equal spans are not read.
fn is_named(pool: &Pool, span: Span, name: Span, text: &[u16]) -> bool
    requires { text.now ≡ text_at pool.now name }
    ensures { result ≡ same_text pool.now span name }
{
    span == name || pool.get(span) == text
}
