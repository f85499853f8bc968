ghost use Rattle.std.specs.Prelude.{◌≡◌, ◌↔◌, ◌≤◌, IsTrue};
ghost use Rattle.rip_limits.specs.Limits.{greatest, AreInRange};

use crate::version::Version;

/// What a session may use. Each limit is from 1 to that of [`Limits::greatest`].
#[derive(Clone, Copy, Debug, PartialEq, Eq)]
pub struct Limits {
    /// Units of fuel that one item of a batch may take.
    pub fuel: u64,
    /// Cells of the heap that are ever charged.
    pub cells: u32,
    /// Units of texts that are ever charged.
    pub units: u32,
    /// Nodes and attributes that are ever made, the document included.
    pub nodes: u32,
    /// Nodes of the program that are entered and not ended, and script functions that run.
    pub depth: u32,
    /// Bytes of made calls that wait for their report.
    pub queue: u32,
    /// Sessions that are live at once.
    pub sessions: u32,
    /// Units of the longest text that a run, or a reply made into values, makes.
    pub text: u32,
    /// Served calls with a callback whose replies are not delivered.
    pub replies: u32,
}

impl Limits {
    /// The limits where none is named.
    pub const DEFAULT: Limits = Limits {
        fuel: 100_000,
        cells: 20_000,
        units: 100_000,
        nodes: 2_000,
        depth: 500,
        queue: 65_536,
        sessions: 64,
        text: 65_535,
        replies: 64,
    };

    /// The greatest limits that a manifest of this version names. Version 1 names neither `text` nor `replies`: their
    /// greatest are the default ones.
    pub fn greatest(version: Version) -> Limits
        ensures { result ≡ greatest version }
    {
        match version {
            Version::One => Limits {
                fuel: 10_000_000,
                cells: 1_000_000,
                units: 4_000_000,
                nodes: 50_000,
                depth: 5_000,
                queue: 1_048_576,
                sessions: 1_024,
                text: 65_535,
                replies: 64,
            },
            Version::Two => Limits {
                fuel: 100_000_000,
                cells: 4_000_000,
                units: 16_000_000,
                nodes: 200_000,
                depth: 5_000,
                queue: 1_048_576,
                sessions: 1_024,
                text: 262_143,
                replies: 1_024,
            },
        }
    }

    /// Whether each limit is from 1 to the greatest of this version.
    pub fn are_in_range(&self, version: Version) -> bool
        ensures { IsTrue result ↔ AreInRange self.now (greatest version) }
    {
        let greatest = Limits::greatest(version);
        is_in_range(self.fuel, greatest.fuel)
            && is_in_range(self.cells.into(), greatest.cells.into())
            && is_in_range(self.units.into(), greatest.units.into())
            && is_in_range(self.nodes.into(), greatest.nodes.into())
            && is_in_range(self.depth.into(), greatest.depth.into())
            && is_in_range(self.queue.into(), greatest.queue.into())
            && is_in_range(self.sessions.into(), greatest.sessions.into())
            && is_in_range(self.text.into(), greatest.text.into())
            && is_in_range(self.replies.into(), greatest.replies.into())
    }
}

// Whether the limit is from 1 to the most.
fn is_in_range(limit: u64, most: u64) -> bool
    ensures { IsTrue result ↔ ((1 ≤ limit) × (limit ≤ most)) }
{
    1 <= limit && limit <= most
}
