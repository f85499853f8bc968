ghost use Rattle.std.specs.Prelude.{◌≡◌, ◌+◌, ◌<◌, ◌≤◌, Some, OnOk, codes, length, nat_lt, true};
ghost use Rattle.std.specs.List.{list_all};
ghost use Rattle.rip_forms.specs.Controls.{attribute_text};
ghost use Rattle.rip_forms.specs.Reports.{Applies, Judges, changed, clicked, effect_of, fits, is_disabled, is_digit, is_length, is_long, is_of_document, is_past, is_past_options, number_behind, passes, put, refusal_of, text_of};

use crate::control::{FormPart, has_attribute, part_of};
use crate::options::option_numbered;
use crate::state::{FormState, Forms};
use crate::words::{DISABLED, MAXLENGTH};
use rip_base::{BadReport, EventKind, LONGEST_INPUT, NodeKind, Refused, Report};
use rip_dom::Dom;
use rip_values::Pool;
use std::alloc::Global;

/// Whether the report is legal where document and states stand so: the first refusal in the order of [`BadReport`].
pub fn legal(dom: &Dom, forms: &Forms, pool: &Pool, r: &Report) -> Result<(), BadReport>
    ensures legal { Judges (refusal_of pool.now dom.now r.now) result }
    ensures made { OnOk result (r.now.node < length dom.now.nodes) }
{
    if !is_of_document(dom, r.node) {
        return Err(BadReport::Node);
    }
    let part = part_of(dom, pool, r.node);
    if !fits(r.kind, r.place, part) {
        return Err(BadReport::Control);
    }
    if is_disabled(dom, pool, r.node, part) {
        return Err(BadReport::Disabled);
    }
    if is_long(dom, pool, r, part) {
        return Err(BadReport::Long);
    }
    if is_past_options(dom, pool, r.node, r.place) {
        return Err(BadReport::Option);
    }
    Ok(())
}

impl Forms {
    /// Does to the states what the legal report says. The text of an input is a new text, and is charged.
    pub fn apply(
        &mut self,
        alloc: Global,
        dom: &Dom,
        pool: &mut Pool,
        r: &Report,
    ) -> Result<(), Refused>
        requires { r.now.node < length self.old.nodes }
        ensures { Applies (is_past pool.old r.now)
            (effect_of dom.now (record { pool = pool.old; states = self.old }) r.now)
            (record { pool = pool.old; states = self.old })
            result (record { pool = pool.new; states = self.new }) }
    {
        match r.kind {
            EventKind::Click => {
                self.click(dom, pool, r.node);
                Ok(())
            }
            EventKind::Change => {
                self.change(r.node, r.place);
                Ok(())
            }
            EventKind::Input => self.input(alloc, pool, r.node, text_of(r)),
            EventKind::Focus | EventKind::Blur | EventKind::Submit => Ok(()),
        }
    }

    fn click(&mut self, dom: &Dom, pool: &Pool, n: u32)
        requires { n < length self.old.nodes }
        ensures { self.new ≡ clicked pool.now dom.now self.old n }
    {
        if matches!(part_of(dom, pool, n), FormPart::Checkbox) {
            let was = self.checked(dom, pool, n);
            self.turn(n, was);
        }
    }

    fn change(&mut self, n: u32, place: Option<u32>)
        requires { n < length self.old.nodes }
        ensures { self.new ≡ changed self.old n place }
    {
        match place {
            Some(place) => self.set(n, FormState::Selected(i64::from(place))),
            None => {}
        }
    }

    fn input(&mut self, alloc: Global, pool: &mut Pool, n: u32, text: &[u16]) -> Result<(), Refused>
        requires { n < length self.old.nodes }
        ensures { Applies (nat_lt pool.old.limit (pool.old.used + length text.now))
            (put (record { pool = pool.old; states = self.old }) n text.now)
            (record { pool = pool.old; states = self.old })
            result (record { pool = pool.new; states = self.new }) }
    {
        let span = pool.add(alloc, text)?;
        self.set(n, FormState::Value(span));
        Ok(())
    }
}

// The text that the report brings.
fn text_of(r: &Report) -> &[u16]
    ensures { result.now ≡ text_of r.now }
{
    match &r.text {
        Some(text) => text.as_slice(),
        None => &[],
    }
}

// Whether the node is an element below the document.
fn is_of_document(dom: &Dom, n: u32) -> bool
    ensures { result ≡ is_of_document dom.now n }
{
    matches!(dom.kind(n), NodeKind::Element) && dom.is_above(0, n)
}

// Whether an event of this kind can happen at this part.
fn fits(kind: EventKind, place: Option<u32>, part: FormPart) -> bool
    ensures { result ≡ fits kind place part }
{
    match kind {
        EventKind::Click => true,
        EventKind::Submit => matches!(part, FormPart::Form),
        EventKind::Input => part.is_text_control(),
        EventKind::Change => match place {
            Some(_) => matches!(part, FormPart::Select),
            None => part.is_text_control() || matches!(part, FormPart::Checkbox),
        },
        EventKind::Focus | EventKind::Blur => part.is_control() || matches!(part, FormPart::Link),
    }
}

fn is_disabled(dom: &Dom, pool: &Pool, n: u32, part: FormPart) -> bool
    ensures { result ≡ is_disabled pool.now dom.now n part }
{
    part.is_control() && has_attribute(dom, pool, n, &DISABLED)
}

// Whether the text of the report is too long for the control.
fn is_long(dom: &Dom, pool: &Pool, r: &Report, part: FormPart) -> bool
    ensures { result ≡ is_long pool.now dom.now r.now.node part r.now.text }
{
    match &r.text {
        Some(text) => {
            text.len() > LONGEST_INPUT as usize
                || !matches!(part, FormPart::NumberInput)
                    && passes_maxlength(dom, pool, r.node, text.len())
        }
        None => false,
    }
}

// Whether so many units pass the attribute `maxlength` of the node.
fn passes_maxlength(dom: &Dom, pool: &Pool, n: u32, count: usize) -> bool
    ensures { result ≡ passes (attribute_text pool.now dom.now n (codes "maxlength")) count }
{
    match dom.attribute(pool, n, &MAXLENGTH) {
        Some(most) => passes(pool.get(most), count),
        None => false,
    }
}

fn passes(most: &[u16], count: usize) -> bool
    ensures { result ≡ passes (Some most.now) count }
{
    is_length(most) && number_of(most) < count as u64
}

// Whether a `maxlength` counts: 1 to 9 digits.
fn is_length(text: &[u16]) -> bool
    ensures { result ≡ is_length text.now }
{
    1 <= text.len() && text.len() <= 9 && are_digits(text)
}

fn are_digits(text: &[u16]) -> bool
    ensures { result ≡ list_all is_digit text.now }
{
    text.iter().all(|unit| 48 <= *unit && *unit <= 57)
}

// The number that so many digits spell.
fn number_of(digits: &[u16]) -> u64
    requires { length digits.now ≤ 9 }
    ensures { result ≡ number_behind 0 digits.now }
{
    let mut number = 0_u64;
    for digit in digits {
        number = 10 * number + u64::from(digit.saturating_sub(48));
    }
    number
}

fn is_past_options(dom: &Dom, pool: &Pool, n: u32, place: Option<u32>) -> bool
    ensures { result ≡ is_past_options pool.now dom.now n place }
{
    match place {
        Some(place) => option_numbered(dom, pool, n, u64::from(place)).is_none(),
        None => false,
    }
}
