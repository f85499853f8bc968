ghost use Rattle.std.specs.Prelude.{◌≡◌, ◌<◌, ◌≤◌, ◌+◌, ◌^◌, ◌∷◌, [], ℕ, false, IfOk, IfErr, MatchResult, length};
ghost use Rattle.rip_base.specs.Page.{Contents};
ghost use Rattle.rip_base.specs.declared.page.PageKind.{PageKind};
ghost use Rattle.rip_markup.specs.Input.{bytes_before};
ghost use Rattle.rip_html.specs.Building.{built};
ghost use Rattle.rip_html.specs.Laws.{HasReading, HasOnePage, HasOneRefusal, IsNeverBoth};
ghost use Rattle.rip_html.specs.Nodes.{document_node};
ghost use Rattle.rip_html.specs.Pages.{PageOf, IsRefusal, IsRefusedAt, IsAt};
ghost use Rattle.rip_html.specs.Scripts.{script_numbers};

use crate::builder::page_nodes;
use crate::scripts::script_numbers;
use crate::standing::first_refusal;
use rip_base::{List, NoMemory, Page};
use rip_markup::{Fault, PageRefusal, PageText, Placed, byte_place, read_text, tokens};
use std::alloc::Global;

/// The page that these bytes are, or the first construct of them that is refused, with the place in bytes. A page whose
/// places 32 bits cannot count is answered with want of memory.
pub fn read_page(alloc: Global, bytes: &[u8]) -> Result<Page, PageRefusal>
    // What is answered is so.
    ensures found { IfOk result (PageOf bytes.now) }
    ensures refused { IfErr result (IsRefusal bytes.now) }

    // What is so is answered, unless memory runs out.
    ensures only { (page : Contents) → PageOf bytes.now page
        → MatchResult result (λ made. made ≡ page) (λ e. e ≡ PageRefusal.Memory) }
    ensures first { (place : ℕ) (kind : PageKind) → IsRefusedAt bytes.now place kind
        → MatchResult result (λ _. ⊥) (IsAt place kind) }
{
    let text = read_text(alloc, bytes)?;
    let list = tokens(alloc, text.units.as_slice())?;
    match first_refusal(alloc, list.as_slice())? {
        Some(fault) => Err(refused_at(&text, fault)),
        None => Ok(page_of(alloc, list)?),
    }
}

/// Bytes are one page, or they are refused at one place as one kind, and never both.
pub fn exactly_one()
    ensures some { HasReading }
    ensures page { HasOnePage }
    ensures refusal { HasOneRefusal }
    ensures exclusive { IsNeverBoth }
{}

/// The refusal for a fault at a place in the page's text.
fn refused_at(text: &PageText, fault: Fault) -> PageRefusal
    requires mark { text.now.mark ≤ 3 }
    requires within { text.now.mark + bytes_before false text.now.raw fault.offset < 2 ^ 32 }
    ensures { result ≡ PageRefusal.At (text.now.mark + bytes_before false text.now.raw fault.offset)
        fault.kind }
{
    PageRefusal::At {
        place: byte_place(text, fault.offset) as u32,
        kind: fault.kind,
    }
}

/// The page whose tokens these are.
fn page_of(alloc: Global, tokens: List<Placed>) -> Result<Page, NoMemory>
    requires { length (built [] (document_node ∷ []) tokens) < 2 ^ 32 }
    ensures nodes { IfOk result (λ page. page.nodes ≡ built [] (document_node ∷ []) tokens) }
    ensures scripts { IfOk result (λ page. page.scripts ≡ script_numbers 0 page.nodes) }
{
    let nodes = page_nodes(alloc, tokens)?;
    let scripts = script_numbers(alloc, nodes.as_slice())?;
    Ok(Page::new(nodes, scripts))
}
