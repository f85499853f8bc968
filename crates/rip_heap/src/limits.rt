/// What the heap of a session may use.
#[derive(Clone, Copy, Debug, PartialEq, Eq)]
pub struct HeapLimits {
    /// Cells that are ever charged.
    pub cells: u32,
    /// Units of texts that are ever charged.
    pub units: u32,
    /// The longest text that a run makes, in units.
    pub text: u32,
}

/// What a session has used.
#[derive(Clone, Copy, Debug, PartialEq, Eq)]
pub struct Used {
    pub cells: u32,
    pub units: u32,
    pub nodes: u32,
    pub depth: u32,
    pub queue: u32,
    pub replies: u32,
}
