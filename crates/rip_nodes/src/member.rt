ghost use Rattle.std.specs.Prelude.{◌≡◌};
ghost use Rattle.rip_nodes.specs.Members.{call_of, member_of};

use rip_values::{Builtin, FixedText};

/// A member that a node may have.
#[derive(Clone, Copy, Debug, PartialEq, Eq)]
pub enum NodeMember {
    GetElementById,
    CreateElement,
    CreateTextNode,
    Body,
    DocumentElement,
    NodeType,
    NodeName,
    TagName,
    NodeValue,
    ParentNode,
    FirstChild,
    LastChild,
    NextSibling,
    PreviousSibling,
    HasChildNodes,
    AppendChild,
    InsertBefore,
    ReplaceChild,
    RemoveChild,
    TextContent,
    GetAttribute,
    HasAttribute,
    SetAttribute,
    RemoveAttribute,
    Id,
    ClassName,
    AddEventListener,
    RemoveEventListener,
}

/// A call that a node may have, of those that need the document and the heap alone.
#[derive(Clone, Copy, Debug, PartialEq, Eq)]
pub enum NodeCall {
    GetElementById,
    CreateElement,
    CreateTextNode,
    HasChildNodes,
    AppendChild,
    InsertBefore,
    ReplaceChild,
    RemoveChild,
    GetAttribute,
    HasAttribute,
    SetAttribute,
    RemoveAttribute,
}

impl NodeMember {
    /// The member that has this name.
    pub fn of(name: FixedText) -> Option<NodeMember>
        ensures { result ≡ member_of name }
    {
        match name {
            FixedText::GetElementById => Some(NodeMember::GetElementById),
            FixedText::CreateElement => Some(NodeMember::CreateElement),
            FixedText::CreateTextNode => Some(NodeMember::CreateTextNode),
            FixedText::Body => Some(NodeMember::Body),
            FixedText::DocumentElement => Some(NodeMember::DocumentElement),
            FixedText::NodeType => Some(NodeMember::NodeType),
            FixedText::NodeName => Some(NodeMember::NodeName),
            FixedText::TagName => Some(NodeMember::TagName),
            FixedText::NodeValue => Some(NodeMember::NodeValue),
            FixedText::ParentNode => Some(NodeMember::ParentNode),
            FixedText::FirstChild => Some(NodeMember::FirstChild),
            FixedText::LastChild => Some(NodeMember::LastChild),
            FixedText::NextSibling => Some(NodeMember::NextSibling),
            FixedText::PreviousSibling => Some(NodeMember::PreviousSibling),
            FixedText::HasChildNodes => Some(NodeMember::HasChildNodes),
            FixedText::AppendChild => Some(NodeMember::AppendChild),
            FixedText::InsertBefore => Some(NodeMember::InsertBefore),
            FixedText::ReplaceChild => Some(NodeMember::ReplaceChild),
            FixedText::RemoveChild => Some(NodeMember::RemoveChild),
            FixedText::TextContent => Some(NodeMember::TextContent),
            FixedText::GetAttribute => Some(NodeMember::GetAttribute),
            FixedText::HasAttribute => Some(NodeMember::HasAttribute),
            FixedText::SetAttribute => Some(NodeMember::SetAttribute),
            FixedText::RemoveAttribute => Some(NodeMember::RemoveAttribute),
            FixedText::Id => Some(NodeMember::Id),
            FixedText::ClassName => Some(NodeMember::ClassName),
            FixedText::AddEventListener => Some(NodeMember::AddEventListener),
            FixedText::RemoveEventListener => Some(NodeMember::RemoveEventListener),
            _ => None,
        }
    }
}

impl NodeCall {
    /// The call that this built-in function is.
    pub fn of(function: Builtin) -> Option<NodeCall>
        ensures { result ≡ call_of function }
    {
        match function {
            Builtin::GetElementById => Some(NodeCall::GetElementById),
            Builtin::CreateElement => Some(NodeCall::CreateElement),
            Builtin::CreateTextNode => Some(NodeCall::CreateTextNode),
            Builtin::HasChildNodes => Some(NodeCall::HasChildNodes),
            Builtin::AppendChild => Some(NodeCall::AppendChild),
            Builtin::InsertBefore => Some(NodeCall::InsertBefore),
            Builtin::ReplaceChild => Some(NodeCall::ReplaceChild),
            Builtin::RemoveChild => Some(NodeCall::RemoveChild),
            Builtin::GetAttribute => Some(NodeCall::GetAttribute),
            Builtin::HasAttribute => Some(NodeCall::HasAttribute),
            Builtin::SetAttribute => Some(NodeCall::SetAttribute),
            Builtin::RemoveAttribute => Some(NodeCall::RemoveAttribute),
            _ => None,
        }
    }
}
