ghost use Rattle.std.specs.Prelude.{◌≡◌, codes};
ghost use Rattle.rip_dom.specs.Names.{attribute_of};
ghost use Rattle.rip_forms.specs.Values.{ReadsValue, checked_of, option_value, value_of, value_or};

use crate::control::{FormPart, has_attribute, part_of};
use crate::state::Forms;
use crate::words::{CHECKED, VALUE};
use rip_base::Span;
use rip_dom::{Dom, TextRefused};
use rip_values::{FixedText, Pool};
use std::alloc::Global;

/// A value that is read: a text that stands in the pool, or the texts below a node, which are to be joined.
#[derive(Clone, Copy, Debug)]
pub enum Value {
    Stands(Span),
    Below(u32),
}

impl Forms {
    /// The value of a control or an option. The text of a textarea or an option is a new text, and is charged.
    pub fn value(
        &self,
        alloc: Global,
        dom: &Dom,
        pool: &mut Pool,
        n: u32,
    ) -> Result<Span, TextRefused>
        ensures { ReadsValue dom.now (value_of pool.old dom.now self.now n) pool.old result
            pool.new }
    {
        match self.value_of(dom, pool, n) {
            Value::Stands(text) => Ok(text),
            Value::Below(node) => dom.read_text(alloc, pool, node),
        }
    }

    /// `checked` of a checkbox.
    pub fn checked(&self, dom: &Dom, pool: &Pool, n: u32) -> bool
        ensures { result ≡ checked_of pool.now dom.now self.now n }
    {
        match self.state(n).checked {
            Some(is) => is,
            None => has_attribute(dom, pool, n, &CHECKED),
        }
    }

    fn value_of(&self, dom: &Dom, pool: &Pool, n: u32) -> Value
        ensures { result ≡ value_of pool.now dom.now self.now n }
    {
        match part_of(dom, pool, n) {
            FormPart::TextInput | FormPart::NumberInput => match self.given(n) {
                Some(text) => Value::Stands(text),
                None => value_or(dom, pool, n, NO_TEXT),
            },
            FormPart::TextArea => match self.given(n) {
                Some(text) => Value::Stands(text),
                None => Value::Below(n),
            },
            FormPart::Checkbox => value_or(dom, pool, n, FixedText::On.span()),
            FormPart::OtherInput | FormPart::Button => value_or(dom, pool, n, NO_TEXT),
            FormPart::Select => match self.chosen(dom, pool, n) {
                Some(option) => option_value(dom, pool, option),
                None => Value::Stands(NO_TEXT),
            },
            FormPart::Choice => option_value(dom, pool, n),
            FormPart::Form | FormPart::Link | FormPart::Other => Value::Stands(NO_TEXT),
        }
    }
}

/// The span of no text.
const NO_TEXT: Span = Span { start: 0, count: 0 };

// The attribute `value`, or else this text.
fn value_or(dom: &Dom, pool: &Pool, n: u32, other: Span) -> Value
    ensures { result ≡ value_or pool.now dom.now n other }
{
    Value::Stands(dom.attribute(pool, n, &VALUE).unwrap_or(other))
}

// The value of an option.
pub(crate) fn option_value(dom: &Dom, pool: &Pool, n: u32) -> Value
    ensures { result ≡ option_value (attribute_of pool.now dom.now n (codes "value")) n }
{
    match dom.attribute(pool, n, &VALUE) {
        Some(text) => Value::Stands(text),
        None => Value::Below(n),
    }
}
