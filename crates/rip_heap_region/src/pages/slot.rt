use rip_base::{Span, Value};

/// A part of a region. What it stands for is told by the row that it is in.
#[derive(Clone, Copy, Debug)]
pub struct Slot {
    pub value: Value,
    pub name: Span,
    pub next: u32,
    pub link: u32,
}

impl Slot {
    /// A slot in which nothing stands yet.
    pub const BLANK: Slot = Slot {
        value: Value::Undefined,
        name: Span { start: 0, count: 0 },
        next: 0,
        link: 0,
    };
}
