ghost use Rattle.std.specs.Prelude.{◌≡◌};
ghost use Rattle.rip_dom.specs.Tree.{is_document, is_element, is_text, has_children};

use rip_base::NodeKind;

pub(crate) fn is_document(kind: NodeKind) -> bool
    ensures { result ≡ is_document kind }
{
    match kind {
        NodeKind::Document => true,
        NodeKind::Element => false,
        NodeKind::Text => false,
        NodeKind::Comment => false,
    }
}

pub(crate) fn is_element(kind: NodeKind) -> bool
    ensures { result ≡ is_element kind }
{
    match kind {
        NodeKind::Document => false,
        NodeKind::Element => true,
        NodeKind::Text => false,
        NodeKind::Comment => false,
    }
}

pub(crate) fn is_text(kind: NodeKind) -> bool
    ensures { result ≡ is_text kind }
{
    match kind {
        NodeKind::Document => false,
        NodeKind::Element => false,
        NodeKind::Text => true,
        NodeKind::Comment => false,
    }
}

/// Whether nodes of this kind can have children.
pub(crate) fn has_children(kind: NodeKind) -> bool
    ensures { result ≡ has_children kind }
{
    match kind {
        NodeKind::Document => true,
        NodeKind::Element => true,
        NodeKind::Text => false,
        NodeKind::Comment => false,
    }
}
