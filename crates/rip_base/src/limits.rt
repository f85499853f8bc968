ghost use Rattle.std.specs.Prelude.{◌↔◌, IsTrue};
ghost use Rattle.rip_base.specs.Limits.{AreInRange};

/// What a session may use. Each limit is from 1 to that of [`Limits::GREATEST`].
#[derive(Clone, Copy, Debug, PartialEq, Eq)]
pub struct Limits {
    /// Units of fuel that one item of a batch may take.
    pub fuel: u64,
    /// Cells of the heap that are ever charged.
    pub cells: u32,
    /// Units of texts that are ever charged.
    pub units: u32,
    /// Nodes and attributes that are ever made, the document included.
    pub nodes: u32,
    /// Nodes of the program that are entered and not ended, and script functions that run.
    pub depth: u32,
    /// Bytes of made calls that wait for their report.
    pub queue: u32,
    /// Sessions that are live at once.
    pub sessions: u32,
}

impl Limits {
    /// The limits where none is named.
    pub const DEFAULT: Limits = Limits {
        fuel: 100_000,
        cells: 20_000,
        units: 100_000,
        nodes: 2_000,
        depth: 500,
        queue: 65_536,
        sessions: 64,
    };

    /// The greatest limits that may be named.
    pub const GREATEST: Limits = Limits {
        fuel: 10_000_000,
        cells: 1_000_000,
        units: 4_000_000,
        nodes: 50_000,
        depth: 5_000,
        queue: 1_048_576,
        sessions: 1_024,
    };

    /// Whether each limit is from 1 to its greatest.
    pub fn are_in_range(&self) -> bool
        ensures { IsTrue result ↔ AreInRange self.now Self.GREATEST }
    {
        let greatest = Limits::GREATEST;
        1 <= self.fuel
            && self.fuel <= greatest.fuel
            && 1 <= self.cells
            && self.cells <= greatest.cells
            && 1 <= self.units
            && self.units <= greatest.units
            && 1 <= self.nodes
            && self.nodes <= greatest.nodes
            && 1 <= self.depth
            && self.depth <= greatest.depth
            && 1 <= self.queue
            && self.queue <= greatest.queue
            && 1 <= self.sessions
            && self.sessions <= greatest.sessions
    }
}

/// The most replies that a session has served and not delivered.
pub const MOST_REPLIES: u32 = 64;

/// The longest text that a run makes, in units.
pub const LONGEST_TEXT: u32 = 65_535;

/// The longest text of an input report, in units.
pub const LONGEST_INPUT: u32 = 8_192;
