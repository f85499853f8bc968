ghost use Rattle.std.specs.Prelude.{◌≡◌, ◌<◌, ◌^◌, IfSome, codes};
ghost use Rattle.rip_dom.specs.Names.{attribute_of};
ghost use Rattle.rip_forms.specs.Choices.{first_place, has_value, is_value, place_of_value};
ghost use Rattle.rip_forms.specs.Options.{options_of};
ghost use Rattle.rip_forms.specs.OptionSteps.{is_wanted};
ghost use Rattle.rip_forms.specs.Values.{option_value};

use crate::options::{more, option_of, steps};
use crate::value::{Value, option_value};
use rip_dom::{Dom, Step, is_end};
use rip_values::Pool;

/// What a write of `value` makes `selectedIndex` of a select: the place of the first option whose value is this text, or
/// -1. No text is made.
pub fn place_of_value(dom: &Dom, pool: &Pool, n: u32, text: &[u16]) -> i64
    ensures { result ≡ place_of_value pool.now dom.now n text.now }
{
    match first_with_value(dom, pool, n, text) {
        Some(place) => place as i64,
        None => -1,
    }
}

// The place of the first option of the select whose value is this text.
fn first_with_value(dom: &Dom, pool: &Pool, n: u32, text: &[u16]) -> Option<u64>
    ensures place { result ≡
        first_place (has_value pool.now dom.now text.now) (options_of pool.now dom.now n) }
    ensures few { IfSome result (λ place. place < 2 ^ 33) }
{
    dom.steps_go_in_order();
    let mut count = 0_u64;
    let mut at = Step::Enter(n);
    for _i in 0..steps(dom) {
        if is_end(at) {
            return None;
        }
        let here = option_of(dom, pool, at);
        if is_wanted(dom, pool, text, here) {
            return Some(count);
        }
        count += more(here);
        at = dom.step(n, at);
    }
    None
}

// Whether the step enters an option whose value is this text.
fn is_wanted(dom: &Dom, pool: &Pool, text: &[u16], here: Option<u32>) -> bool
    ensures { result ≡ is_wanted pool.now dom.now text.now here }
{
    match here {
        Some(option) => is_value(dom, pool, text, option_value(dom, pool, option)),
        None => false,
    }
}

// Whether the value is this text.
fn is_value(dom: &Dom, pool: &Pool, text: &[u16], value: Value) -> bool
    ensures { result ≡ is_value pool.now dom.now text.now value }
{
    match value {
        Value::Stands(span) => text == pool.get(span),
        Value::Below(n) => dom.has_text(pool, n, text),
    }
}
