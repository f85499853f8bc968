ghost use Rattle.std.specs.Prelude.{◌≡◌, ◌<◌, length, true};
ghost use Rattle.rip_values.specs.Pool.{text_at};
ghost use Rattle.rip_heap.specs.Conversions.{span_of};
ghost use Rattle.rip_heap.specs.Growth.{Belongs};
ghost use Rattle.rip_heap.specs.World.{World};
ghost use Rattle.rip_dom.specs.Attributes.{is_attribute_name};
ghost use Rattle.rip_host.specs.FormMembers.{attribute_kept, checked_written, disabled_written, form_member_of, form_read, form_written, has_value, null_or_empty, option_chosen, selected_written, state_written, text_held, value_read, value_written, whole_value};
ghost use Rattle.rip_forms.specs.Values.{value_of};
ghost use Rattle.rip_nodes.specs.Answers.{AddsTexts, IsAnswered};
ghost use Rattle.rip_nodes.specs.Attributes.{attribute_given};
ghost use Rattle.rip_host.specs.Visit.{Fits, KeepsBrowser, of_nodes};

use crate::browser::Browser;
use rip_base::{Fault, Refused, Span, Value, Whole};
use rip_dom::TextRefused;
use rip_forms::{FormPart, FormState, part_of, place_of_value};
use rip_heap::{Heap, HostDone, to_boolean, to_integer, to_number};
use rip_nodes::{give_attribute, outside, text_arg, text_value};
use rip_values::FixedText;

/// A member of controls (DOM Level 2 HTML 1.6.5).
#[derive(Clone, Copy, Debug, PartialEq, Eq)]
pub enum FormMember {
    Value,
    Checked,
    SelectedIndex,
    Disabled,
}

/// The names of attributes that members stand for.
const VALUE: [u16; 5] = [118, 97, 108, 117, 101];

const DISABLED: [u16; 8] = [100, 105, 115, 97, 98, 108, 101, 100];

impl FormMember {
    /// The member that has this name.
    pub fn of(name: FixedText) -> Option<FormMember>
        ensures { result ≡ form_member_of name }
    {
        match name {
            FixedText::Value => Some(FormMember::Value),
            FixedText::Checked => Some(FormMember::Checked),
            FixedText::SelectedIndex => Some(FormMember::SelectedIndex),
            FixedText::Disabled => Some(FormMember::Disabled),
            _ => None,
        }
    }
}

fn has_value(part: FormPart) -> bool
    ensures { result ≡ has_value part }
{
    match part {
        FormPart::Form | FormPart::Link | FormPart::Other => false,
        _ => true,
    }
}

// A whole number of the range as a value.
fn whole_value(z: i64) -> Value
    ensures value { result ≡ whole_value z }
    ensures belongs { (w : World) → Belongs w result }
{
    match Whole::new(z) {
        Some(whole) => Value::Num(whole),
        None => Value::NaN,
    }
}

// Null is written to an input or a textarea as the empty text.
fn null_or_empty(v: &Value) -> Value
    ensures { result ≡ null_or_empty v.now }
{
    match v {
        Value::Null => Value::Text(FixedText::Empty.span()),
        _ => *v,
    }
}

// Where the name `value` stands.
fn value_span(heap: &Heap) -> Span
    ensures span { result ≡ span_of FixedText.Value }
    ensures legal { is_attribute_name (text_at heap.now.pool result) ≡ true }
{
    match heap.pool().fixed(&VALUE) {
        Some(span) => span,
        None => FixedText::Value.span(),
    }
}

// Where the name `disabled` stands.
fn disabled_span(heap: &Heap) -> Span
    ensures span { result ≡ span_of FixedText.Disabled }
    ensures legal { is_attribute_name (text_at heap.now.pool result) ≡ true }
{
    match heap.pool().fixed(&DISABLED) {
        Some(span) => span,
        None => FixedText::Disabled.span(),
    }
}

impl Browser {
    /// What a node has as this member.
    pub(crate) fn read_form(&mut self, heap: &mut Heap, n: u32, member: FormMember) -> HostDone
        requires fits { Fits self.old heap.old }
        ensures answer { (result, heap.new, self.new) ≡ form_read heap.old self.old n member }
        ensures keeps { KeepsBrowser heap.old self.old result heap.new self.new }
    {
        let part = part_of(&self.dom, heap.pool(), n);
        match member {
            FormMember::Value if has_value(part) => self.read_value(heap, n),
            FormMember::Checked if matches!(part, FormPart::Checkbox) => HostDone::Value(
                Value::Bool(self.forms.checked(&self.dom, heap.pool(), n)),
            ),
            FormMember::SelectedIndex if matches!(part, FormPart::Select) => HostDone::Value(
                whole_value(self.forms.selected(&self.dom, heap.pool(), n)),
            ),
            FormMember::Disabled if part.is_control() => HostDone::Value(Value::Bool(
                self.dom.attribute(heap.pool(), n, &DISABLED).is_some(),
            )),
            _ => outside(),
        }
    }

    fn read_value(&self, heap: &mut Heap, n: u32) -> HostDone
        ensures answer { (result, heap.new) ≡ value_read heap.old self.now.dom
            (value_of heap.old.pool self.now.dom self.now.forms n) }
        ensures adds { AddsTexts heap.old heap.new }
        ensures answered { IsAnswered heap.old result heap.new }
    {
        match heap.with_texts(&mut |pool| self.forms.value(self.alloc, &self.dom, pool, n)) {
            Ok(span) => HostDone::Value(text_value(heap, span)),
            Err(TextRefused::TooLong) => HostDone::Fault(Fault::TextTooLong),
            Err(TextRefused::Refused(Refused::Limit(limit))) => HostDone::Limit(limit),
            Err(TextRefused::Refused(Refused::Memory)) => HostDone::Memory,
        }
    }

    /// Writes this member of a node.
    pub(crate) fn write_form(
        &mut self,
        heap: &mut Heap,
        n: u32,
        member: FormMember,
        v: &Value,
    ) -> HostDone
        requires fits { Fits self.old heap.old }
        requires node { n < length self.old.dom.nodes }
        ensures answer { (result, heap.new, self.new) ≡
            form_written heap.old self.old n member v.now }
        ensures keeps { KeepsBrowser heap.old self.old result heap.new self.new }
    {
        let part = part_of(&self.dom, heap.pool(), n);
        match member {
            FormMember::Value => self.write_value(heap, n, part, v),
            FormMember::Checked if matches!(part, FormPart::Checkbox) => {
                let checked = to_boolean(heap, *v);
                self.set_state(heap, n, FormState::Checked(checked))
            }
            FormMember::SelectedIndex if matches!(part, FormPart::Select) => {
                match to_number(heap, *v) {
                    Ok(number) => {
                        let place = to_integer(number);
                        self.set_state(heap, n, FormState::Selected(place))
                    }
                    Err(fault) => HostDone::Fault(fault),
                }
            }
            FormMember::Disabled if part.is_control() => {
                let disabled = to_boolean(heap, *v);
                self.keep_disabled(heap, n, disabled)
            }
            _ => outside(),
        }
    }

    fn set_state(&mut self, heap: &Heap, n: u32, set: FormState) -> HostDone
        requires fits { Fits self.old heap.now }
        requires node { n < length self.old.dom.nodes }
        ensures answer { (result, heap.now, self.new) ≡ state_written heap.now self.old n set }
        ensures keeps { KeepsBrowser heap.now self.old result heap.now self.new }
    {
        let _made = self.dom.made();
        let _ = heap;
        self.forms.set(n, set);
        HostDone::Value(Value::Undefined)
    }

    fn write_value(&mut self, heap: &mut Heap, n: u32, part: FormPart, v: &Value) -> HostDone
        requires fits { Fits self.old heap.old }
        requires node { n < length self.old.dom.nodes }
        ensures answer { (result, heap.new, self.new) ≡
            value_written heap.old self.old n part v.now }
        ensures keeps { KeepsBrowser heap.old self.old result heap.new self.new }
    {
        match part {
            FormPart::TextInput | FormPart::NumberInput | FormPart::TextArea => {
                self.hold_text(heap, n, &null_or_empty(v))
            }
            FormPart::Checkbox | FormPart::OtherInput => {
                self.give_value(heap, n, &null_or_empty(v))
            }
            FormPart::Button => self.give_value(heap, n, v),
            FormPart::Select => self.choose(heap, n, v),
            FormPart::Choice | FormPart::Form | FormPart::Link | FormPart::Other => outside(),
        }
    }

    // A text control holds the text of the value.
    fn hold_text(&mut self, heap: &mut Heap, n: u32, v: &Value) -> HostDone
        requires fits { Fits self.old heap.old }
        requires node { n < length self.old.dom.nodes }
        ensures answer { (result, heap.new, self.new) ≡ text_held heap.old self.old n v.now }
        ensures keeps { KeepsBrowser heap.old self.old result heap.new self.new }
    {
        match text_arg(self.alloc, heap, false, v) {
            Ok(text) => {
                let _made = self.dom.made();
                self.forms.set(n, FormState::Value(text));
                HostDone::Value(Value::Undefined)
            }
            Err(done) => done,
        }
    }

    // Of a select the first option of that value is chosen, or none.
    fn choose(&mut self, heap: &mut Heap, n: u32, v: &Value) -> HostDone
        requires fits { Fits self.old heap.old }
        requires node { n < length self.old.dom.nodes }
        ensures answer { (result, heap.new, self.new) ≡ option_chosen heap.old self.old n v.now }
        ensures keeps { KeepsBrowser heap.old self.old result heap.new self.new }
    {
        match text_arg(self.alloc, heap, false, v) {
            Ok(text) => {
                let _made = self.dom.made();
                let pool = heap.pool();
                let place = place_of_value(&self.dom, pool, n, pool.get(text));
                self.forms.set(n, FormState::Selected(place));
                HostDone::Value(Value::Undefined)
            }
            Err(done) => done,
        }
    }

    // The attribute `value` gets the text of the value.
    fn give_value(&mut self, heap: &mut Heap, n: u32, v: &Value) -> HostDone
        requires fits { Fits self.old heap.old }
        requires node { n < length self.old.dom.nodes }
        ensures answer { (result, heap.new, self.new) ≡
            of_nodes (attribute_given heap.old self.old.dom n (span_of FixedText.Value) v.now) self.old }
        ensures keeps { KeepsBrowser heap.old self.old result heap.new self.new }
    {
        let name = value_span(heap);
        give_attribute(self.alloc, heap, &mut self.dom, n, name, v)
    }

    // The attribute `disabled` is there, of the empty text, or is not.
    fn keep_disabled(&mut self, heap: &mut Heap, n: u32, disabled: bool) -> HostDone
        requires fits { Fits self.old heap.old }
        requires node { n < length self.old.dom.nodes }
        ensures answer { (result, heap.new, self.new) ≡
            attribute_kept disabled heap.old self.old n }
        ensures keeps { KeepsBrowser heap.old self.old result heap.new self.new }
    {
        if disabled {
            let name = disabled_span(heap);
            let empty = Value::Text(FixedText::Empty.span());
            give_attribute(self.alloc, heap, &mut self.dom, n, name, &empty)
        } else {
            self.dom.remove_attribute(heap.pool(), n, &DISABLED);
            HostDone::Value(Value::Undefined)
        }
    }
}
