ghost use Rattle.std.specs.Prelude.{◌≡◌, ◌+◌, ◌<◌, ◌^◌, Some, length, slice_get};
ghost use Rattle.rip_dom.specs.Way.{found_at};
ghost use Rattle.rip_forms.specs.Options.{chosen_of, first_choice, is_option, option_at, options_of, place_set, selected_of};
ghost use Rattle.rip_forms.specs.OptionSteps.{fewer, found_behind, is_sought, more};

use crate::control::{FormPart, has_attribute, part_of};
use crate::state::Forms;
use crate::words::SELECTED;
use rip_dom::{Dom, Step, is_end};
use rip_values::Pool;

impl Forms {
    /// `selectedIndex` of a select: the place of the option that is chosen, counted from 0, or -1.
    pub fn selected(&self, dom: &Dom, pool: &Pool, n: u32) -> i64
        ensures { result ≡ selected_of pool.now dom.now self.now n }
    {
        let place = self.place_set(dom, pool, n);
        if option_at(dom, pool, n, place).is_some() {
            place
        } else {
            -1
        }
    }

    // The option of a select that is chosen.
    pub(crate) fn chosen(&self, dom: &Dom, pool: &Pool, n: u32) -> Option<u32>
        ensures { result ≡ chosen_of pool.now dom.now self.now n }
    {
        option_at(dom, pool, n, self.place_set(dom, pool, n))
    }

    fn place_set(&self, dom: &Dom, pool: &Pool, n: u32) -> i64
        ensures { result ≡ place_set pool.now dom.now self.now n }
    {
        match self.state(n).selected {
            Some(place) => place,
            None => first_choice(dom, pool, n) as i64,
        }
    }
}

// The option of the select at this place.
fn option_at(dom: &Dom, pool: &Pool, n: u32, place: i64) -> Option<u32>
    ensures { result ≡ option_at pool.now dom.now n place }
{
    if place < 0 {
        return None;
    }
    option_numbered(dom, pool, n, place as u64)
}

/// The option of the select at this place, counted from 0.
pub(crate) fn option_numbered(dom: &Dom, pool: &Pool, n: u32, place: u64) -> Option<u32>
    ensures { result ≡ slice_get (options_of pool.now dom.now n) place }
{
    dom.steps_go_in_order();
    let mut left = place;
    let mut at = Step::Enter(n);
    for _i in 0..steps(dom) {
        if is_end(at) {
            return None;
        }
        let here = option_of(dom, pool, at);
        if is_sought(left, here) {
            return here;
        }
        left = fewer(left, here);
        at = dom.step(n, at);
    }
    None
}

// Where the choice of a select begins.
fn first_choice(dom: &Dom, pool: &Pool, n: u32) -> u64
    ensures place { result ≡ first_choice pool.now dom.now n }
    ensures few { result < 2 ^ 33 }
{
    dom.steps_go_in_order();
    let mut count = 0_u64;
    let mut found = 0_u64;
    let mut at = Step::Enter(n);
    for _i in 0..steps(dom) {
        if is_end(at) {
            return found;
        }
        let here = option_of(dom, pool, at);
        found = found_behind(dom, pool, here, count, found);
        count += more(here);
        at = dom.step(n, at);
    }
    found
}

// As many steps as go through a document.
pub(crate) fn steps(dom: &Dom) -> u64
    ensures count { result ≡ length dom.now.nodes + length dom.now.nodes }
    ensures few { result < 2 ^ 33 }
{
    2 * u64::from(dom.made())
}

// Whether the step enters the option that is looked for.
fn is_sought(left: u64, here: Option<u32>) -> bool
    ensures { result ≡ is_sought left here }
{
    match here {
        Some(_) => left == 0,
        None => false,
    }
}

// How many options are left to be passed behind this step.
fn fewer(left: u64, here: Option<u32>) -> u64
    ensures { result ≡ fewer left here }
{
    match here {
        Some(_) => left.saturating_sub(1),
        None => left,
    }
}

// How many options this step enters.
pub(crate) fn more(here: Option<u32>) -> u64
    ensures { result ≡ more here }
{
    match here {
        Some(_) => 1,
        None => 0,
    }
}

// The place of the last option with `selected` so far.
fn found_behind(dom: &Dom, pool: &Pool, here: Option<u32>, count: u64, found: u64) -> u64
    ensures { result ≡ found_behind pool.now dom.now here count found }
{
    match here {
        Some(option) => {
            if has_attribute(dom, pool, option, &SELECTED) {
                count
            } else {
                found
            }
        }
        None => found,
    }
}

// The option that this step enters.
pub(crate) fn option_of(dom: &Dom, pool: &Pool, at: Step) -> Option<u32>
    ensures { result ≡ found_at (is_option pool.now dom.now) at }
{
    match at {
        Step::Enter(n) => {
            if is_option(dom, pool, n) {
                Some(n)
            } else {
                None
            }
        }
        Step::Leave(_) => None,
        Step::End => None,
    }
}

fn is_option(dom: &Dom, pool: &Pool, n: u32) -> bool
    ensures { result ≡ is_option pool.now dom.now n }
{
    matches!(part_of(dom, pool, n), FormPart::Choice)
}
