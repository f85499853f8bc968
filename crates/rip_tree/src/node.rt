ghost use Rattle.std.specs.Prelude.{◌≡◌, ◌+◌, ◌≤◌, min};

use crate::form::Form;

/// A piece of a tree's units: `count` of them from `start` on. A name is a piece of the script itself, so that `start`
/// is its place in the script.
#[derive(Clone, Copy, Debug, PartialEq, Eq)]
pub struct Piece {
    pub start: u32,
    pub count: u32,
}

/// A node of a tree.
#[derive(Clone, Copy, Debug, PartialEq, Eq)]
pub struct Node {
    /// The place of the first unit of its first token, counted in units of the script from 0. A `(` before its first
    /// part belongs to it, and parentheses around the node itself do not.
    pub place: u32,
    pub form: Form,
}

/// A node and where its children stand among those of all nodes: from `start` up to `end`.
#[derive(Clone, Copy, Debug, PartialEq, Eq)]
pub(crate) struct Row {
    pub node: Node,
    pub start: usize,
    pub end: usize,
}

/// Where the part of a piece that lies in `length` units starts and ends.
pub(crate) fn within(piece: Piece, length: usize) -> (usize, usize)
    ensures start { result.0 ≡ min piece.start length }
    ensures end { result.1 ≡ min (piece.start + piece.count) length }
    ensures order { result.0 ≤ result.1 }
{
    let start = (piece.start as usize).min(length);
    let end = (piece.start as usize + piece.count as usize).min(length);
    (start, end)
}
