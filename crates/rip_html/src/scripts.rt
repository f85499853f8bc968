ghost use Rattle.std.specs.Prelude.{◌≡◌, ◌<◌, ◌+◌, ◌^◌, ◌&&◌, IfOk, length};
ghost use Rattle.rip_html.specs.Scripts.{is_element, is_parent, text_number, script_numbers};
ghost use Rattle.rip_html.specs.Tags.{is_script};

use crate::tags::is_script;
use rip_base::{List, NoMemory, NodeKind, PageNode};
use std::alloc::Global;

/// Of each script among the nodes of a page, the node that holds its text.
pub(crate) fn script_numbers(alloc: Global, nodes: &[PageNode]) -> Result<List<u32>, NoMemory>
    requires { length nodes.now < 2 ^ 32 }
    ensures { IfOk result (λ numbers. numbers ≡ script_numbers 0 nodes.now) }
{
    let mut numbers = Vec::new(alloc);
    let mut number: u32 = 0;
    let mut rest = nodes;
    while let [node, others @ ..] = rest {
        if is_script_node(node) {
            numbers.push(text_number(number, others))?;
        }
        number += 1;
        rest = others;
    }
    Ok(List::from_vec(numbers))
}

/// Whether the node is a script.
fn is_script_node(node: &PageNode) -> bool
    ensures { result ≡ (is_element node.now.kind && is_script node.now.name) }
{
    matches!(node.kind, NodeKind::Element) && is_script(node.name.as_slice())
}

/// The node that holds the text of a script with this number, which these nodes follow.
fn text_number(number: u32, others: &[PageNode]) -> u32
    requires { number + 1 < 2 ^ 32 }
    ensures { result ≡ text_number number others.now }
{
    match others {
        [first, ..] if first.parent == Some(number) => number + 1,
        _ => number,
    }
}
