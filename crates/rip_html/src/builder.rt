ghost use Rattle.std.specs.Prelude.{◌≡◌, ◌<◌, ◌+◌, ◌^◌, ◌++◌, [], ◌∷◌, IfOk, OnOk, length, nat_lt};
ghost use Rattle.rip_html.specs.Building.{parent_of, if_kept, token_nodes, open_after, built};
ghost use Rattle.rip_html.specs.Nodes.{document_node, element_node, text_nodes, comment_node};

use rip_base::{List, NoMemory, NodeKind, PageNode, Units};
use rip_markup::{Placed, StartTag, Token, is_void};
use std::alloc::Global;
use std::collections::VecDeque;

/// The number of the head, which follows the document and html.
const HEAD: u32 = 2;

/// The nodes of a page in the making.
#[derive(Debug, Drop)]
struct Builder {
    nodes: Vec<PageNode>,
    /// The numbers of the open elements, the innermost first.
    open: VecDeque<u32>,
}

impl Builder {
    /// The innermost of the open elements, or the document.
    fn parent(&self) -> u32
        ensures { result ≡ parent_of self.now.open.items }
    {
        self.open.front().copied().unwrap_or(0)
    }

    /// Adds the node that a token makes, if any.
    fn take(&mut self, alloc: Global, token: Token) -> Result<(), NoMemory>
        requires { length self.old.nodes.items < 2 ^ 32 }
        ensures nodes { OnOk result
            (self.new.nodes.items ≡ self.old.nodes.items
            ++ token_nodes (parent_of self.old.open.items) token) }
        ensures open { OnOk result
            (self.new.open.items ≡ open_after self.old.open.items (length self.old.nodes.items)
            token) }
    {
        match token {
            Token::Text(run) => self.add_text(alloc, run.units),
            Token::Comment(units) => self.add_comment(alloc, units),
            Token::StartTag(tag) => self.add_element(alloc, tag),
            Token::EndTag(_) => {
                let _ = self.open.pop_front();
                Ok(())
            }
            Token::OpenComment | Token::Doctype | Token::Stray | Token::End => Ok(()),
        }
    }

    /// Adds a text, where texts are kept and it isn't empty.
    fn add_text(&mut self, alloc: Global, units: Units) -> Result<(), NoMemory>
        ensures nodes { OnOk result
            (self.new.nodes.items ≡ self.old.nodes.items ++ if_kept (parent_of self.old.open.items)
            (text_nodes (parent_of self.old.open.items) units)) }
        ensures open { self.new.open.items ≡ self.old.open.items }
    {
        let parent = self.parent();
        if parent > HEAD && !units.is_empty() {
            self.nodes
                .push(text_node(alloc, parent, NodeKind::Text, units))?;
        }
        Ok(())
    }

    /// Adds a comment, where comments are kept.
    fn add_comment(&mut self, alloc: Global, units: Units) -> Result<(), NoMemory>
        ensures nodes { OnOk result
            (self.new.nodes.items ≡ self.old.nodes.items ++ if_kept (parent_of self.old.open.items)
            (comment_node (parent_of self.old.open.items) units ∷ [])) }
        ensures open { self.new.open.items ≡ self.old.open.items }
    {
        let parent = self.parent();
        if parent > HEAD {
            self.nodes
                .push(text_node(alloc, parent, NodeKind::Comment, units))?;
        }
        Ok(())
    }

    /// Adds an element, and opens it if it has content.
    fn add_element(&mut self, alloc: Global, tag: StartTag) -> Result<(), NoMemory>
        requires { length self.old.nodes.items < 2 ^ 32 }
        ensures nodes { OnOk result
            (self.new.nodes.items ≡ self.old.nodes.items
            ++ element_node (parent_of self.old.open.items) tag ∷ []) }
        ensures open { OnOk result
            (self.new.open.items ≡ open_after self.old.open.items (length self.old.nodes.items)
            (Token.StartTag tag)) }
    {
        let number = self.nodes.len() as u32;
        let parent = self.parent();
        if !is_void(tag.name.as_slice()) {
            self.open.push_front(number)?;
        }
        self.nodes.push(element_node(alloc, parent, tag))?;
        Ok(())
    }
}

/// The element that a tag begins.
fn element_node(alloc: Global, parent: u32, tag: StartTag) -> PageNode
    ensures { result ≡ element_node parent tag }
{
    PageNode {
        kind: NodeKind::Element,
        name: tag.name,
        text: List::new(alloc),
        attributes: tag.attributes,
        parent: Some(parent),
    }
}

/// A text or a comment.
fn text_node(alloc: Global, parent: u32, kind: NodeKind, units: Units) -> PageNode
    ensures { result ≡ record
        { kind = kind; name = []; text = units; attributes = []; parent = Some parent } }
{
    PageNode {
        kind,
        name: List::new(alloc),
        text: units,
        attributes: List::new(alloc),
        parent: Some(parent),
    }
}

/// The document.
fn document_node(alloc: Global) -> PageNode
    ensures { result ≡ document_node }
{
    PageNode {
        kind: NodeKind::Document,
        name: List::new(alloc),
        text: List::new(alloc),
        attributes: List::new(alloc),
        parent: None,
    }
}

/// The nodes that the tokens of a page make.
pub(crate) fn page_nodes(alloc: Global, tokens: List<Placed>) -> Result<List<PageNode>, NoMemory>
    requires { length (built [] (document_node ∷ []) tokens) < 2 ^ 32 }
    ensures { IfOk result (λ nodes. nodes ≡ built [] (document_node ∷ []) tokens) }
{
    let mut builder = Builder {
        nodes: vec![in alloc; document_node(alloc)]?,
        open: VecDeque::new(alloc),
    };
    for placed in tokens.into_vec() {
        builder.take(alloc, placed.token)?;
    }
    Ok(List::from_vec(builder.nodes))
}
