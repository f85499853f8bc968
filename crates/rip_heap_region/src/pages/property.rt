use rip_base::{Span, Value};

/// A property of an object: its name, a text of the heap's pool, and its value.
#[derive(Clone, Copy, Debug)]
pub struct Property {
    pub name: Span,
    pub value: Value,
}
