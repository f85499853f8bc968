ghost use Rattle.std.specs.Prelude.{◌≡◌, ◌≤◌, ◌<◌, length, slice_get, Some};
ghost use Rattle.rip_base.specs.Page.{IsPage, script_at};

use crate::list::{List, Units};
use std::error::Error;
use std::fmt;
use std::marker::Model;

/// What a node of a page is (DOM Level 2 Core 1.2).
#[derive(Clone, Copy, Debug, PartialEq, Eq)]
pub enum NodeKind {
    Document,
    Element,
    Text,
    Comment,
}

/// An attribute of an element: a name in small letters, and the value that it has on the page.
#[derive(Debug, Drop)]
pub struct Attribute {
    pub name: Units,
    pub value: Units,
}

/// The attributes of an element, in the order of the page.
pub type PairList = List<Attribute>;

/// A node of a page. The number of a node is its place in document order, the document's is 0.
#[derive(Debug, Drop)]
pub struct PageNode {
    pub kind: NodeKind,
    /// The name of an element in small letters; of other nodes it is empty.
    pub name: Units,
    /// The text of a text or comment; of other nodes it is empty.
    pub text: Units,
    /// The attributes of an element; other nodes have none.
    pub attributes: PairList,
    /// The number of the node's parent, which only the document lacks.
    pub parent: Option<u32>,
}

/// Why bytes are no page, in the order in which the kinds at one place count.
#[derive(Clone, Copy, Debug, PartialEq, Eq)]
pub enum PageKind {
    NotUtf8,
    MissingPart,
    BadTag,
    BadAttribute,
    DoubleAttribute,
    BadReference,
    OpenComment,
    Misnested,
    TextOutside,
    ScriptNotLast,
    ExternalScript,
    NotInSubset,
    TooNested,
}

impl fmt::Display for PageKind {
    ghost use Rattle.std.specs.Prelude.{Some};
    ghost use Rattle.rip_base.specs.Printed.{kind_text};

    ghost output = { λ kind. Some (kind_text kind) };

    fn fmt<W: fmt::Write>(&self, f: &mut fmt::Formatter<W>) -> fmt::Result {
        f.write_str(match self {
            PageKind::NotUtf8 => "NotUtf8",
            PageKind::MissingPart => "MissingPart",
            PageKind::BadTag => "BadTag",
            PageKind::BadAttribute => "BadAttribute",
            PageKind::DoubleAttribute => "DoubleAttribute",
            PageKind::BadReference => "BadReference",
            PageKind::OpenComment => "OpenComment",
            PageKind::Misnested => "Misnested",
            PageKind::TextOutside => "TextOutside",
            PageKind::ScriptNotLast => "ScriptNotLast",
            PageKind::ExternalScript => "ExternalScript",
            PageKind::NotInSubset => "NotInSubset",
            PageKind::TooNested => "TooNested",
        })
    }
}

impl Error for PageKind {}

/// A page: its nodes in document order, and which of them hold the texts of its scripts.
#[derive(Debug, Drop)]
pub struct Page {
    nodes: List<PageNode>,
    scripts: List<u32>,
}

impl Model for Page {
    ghost use Rattle.rip_base.specs.Page.{Contents, IsPage};

    ghost Value = { Contents };

    ghost view = { λ p. record { nodes = p.nodes; scripts = p.scripts } };

    ghost invariant = { λ p. IsPage p.nodes p.scripts };
}

impl Page {
    /// The page of these nodes. Of each script, in order, `scripts` has the number of the node whose text it is: its
    /// text node, or the element itself where the script is empty.
    pub fn new(nodes: List<PageNode>, scripts: List<u32>) -> Page
        requires { IsPage nodes scripts }
        ensures { result ≡ record { nodes = nodes; scripts = scripts } }
    {
        Page { nodes, scripts }
    }

    /// How many nodes the page has.
    pub fn count(&self) -> u32
        ensures { result ≡ length self.now.nodes }
    {
        self.nodes.len() as u32
    }

    /// The node with this number.
    pub fn node(&self, n: u32) -> &PageNode
        requires { n < length self.now.nodes }
        ensures { slice_get self.now.nodes n ≡ Some result.now }
    {
        &self.nodes.as_slice()[n as usize]
    }

    /// How many scripts the page has.
    pub fn script_count(&self) -> u32
        ensures { result ≡ length self.now.scripts }
    {
        self.scripts.len() as u32
    }

    /// The text of a script, which are numbered from 1.
    pub fn script(&self, j: u32) -> &Units
        requires from_one { 1 ≤ j }
        requires there { j ≤ length self.now.scripts }
        ensures { script_at self.now j ≡ Some result.now }
    {
        let number = self.scripts.as_slice()[j as usize - 1];
        &self.nodes.as_slice()[number as usize].text
    }
}
