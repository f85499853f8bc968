ghost use Rattle.std.specs.Prelude.{◌≡◌};
ghost use Rattle.rip_base.specs.Units.{small_text};
ghost use Rattle.rip_forms.specs.Controls.{has_attribute, input_at, input_of_type, is_control, is_text_control, is_text_type, part_named, part_of};

use crate::words::TYPE;
use rip_base::{Span, is_ascii, is_ascii_in_small};
use rip_dom::Dom;
use rip_values::Pool;

/// What a node is to a form: one of the controls (HTML 4.01 17.2.1), or what else the rules of forms speak of.
#[derive(Clone, Copy, Debug, PartialEq, Eq)]
pub enum FormPart {
    /// A `button`.
    Button,
    /// An `input` without a type, or of one of the types text, password, search, tel, url and email.
    TextInput,
    /// An `input` of type number.
    NumberInput,
    /// A `textarea`.
    TextArea,
    /// An `input` of type checkbox.
    Checkbox,
    /// An `input` of another type, also of one that is empty or not known.
    OtherInput,
    /// A `select`.
    Select,
    /// An `option`.
    Choice,
    /// A `form`.
    Form,
    /// An `a`.
    Link,
    /// Any other node.
    Other,
}

impl FormPart {
    /// Whether it is a control.
    pub fn is_control(self) -> bool
        ensures { result ≡ is_control self }
    {
        match self {
            FormPart::Button
            | FormPart::TextInput
            | FormPart::NumberInput
            | FormPart::TextArea
            | FormPart::Checkbox
            | FormPart::OtherInput
            | FormPart::Select => true,
            FormPart::Choice | FormPart::Form | FormPart::Link | FormPart::Other => false,
        }
    }

    /// Whether it is a control that holds a text.
    pub fn is_text_control(self) -> bool
        ensures { result ≡ is_text_control self }
    {
        matches!(
            self,
            FormPart::TextInput | FormPart::NumberInput | FormPart::TextArea
        )
    }
}

/// What the node is to a form, by its name and, of an input, its type as it is now.
pub fn part_of(dom: &Dom, pool: &Pool, n: u32) -> FormPart
    ensures { result ≡ part_of pool.now dom.now n }
{
    match dom.name(n) {
        Some(name) => part_named(dom, pool, n, pool.get(name)),
        None => FormPart::Other,
    }
}

fn part_named(dom: &Dom, pool: &Pool, n: u32, name: &[u16]) -> FormPart
    ensures { result ≡ part_named pool.now dom.now n name.now }
{
    if is_ascii(name, b"input") {
        input_part(pool, dom.attribute(pool, n, &TYPE))
    } else if is_ascii(name, b"button") {
        FormPart::Button
    } else if is_ascii(name, b"select") {
        FormPart::Select
    } else if is_ascii(name, b"textarea") {
        FormPart::TextArea
    } else if is_ascii(name, b"option") {
        FormPart::Choice
    } else if is_ascii(name, b"form") {
        FormPart::Form
    } else if is_ascii(name, b"a") {
        FormPart::Link
    } else {
        FormPart::Other
    }
}

fn input_part(pool: &Pool, spelled: Option<Span>) -> FormPart
    ensures { result ≡ input_at pool.now spelled }
{
    match spelled {
        Some(spelled) => part_of_type(pool.get(spelled)),
        None => FormPart::TextInput,
    }
}

fn part_of_type(spelled: &[u16]) -> FormPart
    ensures { result ≡ input_of_type (small_text spelled.now) }
{
    if is_text_type(spelled) {
        FormPart::TextInput
    } else if is_ascii_in_small(spelled, b"number") {
        FormPart::NumberInput
    } else if is_ascii_in_small(spelled, b"checkbox") {
        FormPart::Checkbox
    } else {
        FormPart::OtherInput
    }
}

#[tactic(auto, unfolding(crate::specs::Controls::text_types))]
fn is_text_type(spelled: &[u16]) -> bool
    ensures { result ≡ is_text_type (small_text spelled.now) }
{
    is_ascii_in_small(spelled, b"text")
        || is_ascii_in_small(spelled, b"password")
        || is_ascii_in_small(spelled, b"search")
        || is_ascii_in_small(spelled, b"tel")
        || is_ascii_in_small(spelled, b"url")
        || is_ascii_in_small(spelled, b"email")
}

/// Whether the node has an attribute of this name.
pub(crate) fn has_attribute(dom: &Dom, pool: &Pool, n: u32, name: &[u16]) -> bool
    ensures { result ≡ has_attribute pool.now dom.now n name.now }
{
    dom.attribute(pool, n, name).is_some()
}
