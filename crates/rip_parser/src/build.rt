//! From what is told of a script to its tree.

ghost use Rattle.std.specs.Prelude.{◌≡◌, ◌+◌, ◌∷◌, [], List, reverse, min, IfOk, IfErr, IfSome};
ghost use Rattle.rip_lexer.specs.Tokens.{IsTokens};
ghost use Rattle.rip_grammar.specs.Depths.{depth};
ghost use Rattle.rip_grammar.specs.Events.{emit};
ghost use Rattle.rip_grammar.specs.Phrases.{Phrase};
ghost use Rattle.rip_parser.specs.Building.{node_count};
ghost use Rattle.rip_grammar.specs.declared.event.Event.{Event as Event'};
ghost use Rattle.rip_parser.specs.Parsed.{IsBody};
ghost use Rattle.rip_parser.specs.Shows.{ShowsScript};

use crate::builder::{Builder, Built};
use crate::error::BuildError;
use rip_grammar::Event;
use rip_lexer::Token;
use std::alloc::Global;

/// The tree of what is told of a script.
pub(crate) fn build(
    alloc: Global,
    script: &[u16],
    tokens: &[Token],
    events: &[Event],
) -> Result<Built, BuildError>
    requires tokens { IsTokens script.now tokens.now }
    ensures shown { (body : Phrase) → IsBody script.now tokens.now body → reverse events.now
        ≡ emit body [] → IfOk result (λ built. ShowsScript script.now built.tree body) }
    ensures deep { (body : Phrase) → IsBody script.now tokens.now body → reverse events.now
        ≡ emit body [] → IfOk result (λ built. built.depth ≡ min (depth body) 201) }
    ensures refused { (body : Phrase) → IsBody script.now tokens.now body → reverse events.now
        ≡ emit body [] → IfErr result (λ e. e ≡ BuildError.Memory) }
{
    let Some(total) = node_total(events) else {
        return Err(BuildError::Memory);
    };
    let mut builder = Builder::new(alloc, script, total)?;
    for event in events {
        builder.take(script, tokens, *event)?;
    }
    builder.finish()
}

/// How many nodes are told, the script's counted, or none where 32 bits do not count them.
fn node_total(events: &[Event]) -> Option<u32>
    ensures { IfSome result (λ total. total ≡ node_count (reverse events.now) + 1) }
{
    let mut total: u32 = 1;
    for event in events {
        total = counted(total, *event)?;
    }
    Some(total)
}

/// One node more, if what is told is one.
fn counted(total: u32, event: Event) -> Option<u32>
    ensures { IfSome result
        (λ more. (told : List Event') → total ≡ node_count told + 1 → more
        ≡ node_count (event ∷ told) + 1) }
{
    match event {
        Event::Node { .. } => total.checked_add(1),
        Event::Absent | Event::Parenthesized(_) => Some(total),
    }
}
