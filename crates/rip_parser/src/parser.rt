ghost use Rattle.std.specs.Prelude.{IfOk, IfErr};
ghost use Rattle.rip_lexer.specs.Tokens.{IsTokens};
ghost use Rattle.rip_grammar.specs.Phrases.{Phrase};
ghost use Rattle.rip_parser.specs.Parsed.{HasTree, IsBody, IsRefused, IsShallow, IsTooDeep};
ghost use Rattle.rip_parser.specs.Shows.{ShowsScript};

use crate::build::build;
use crate::deepest::first_too_deep;
use crate::error::BuildError;
use crate::part::TOO_DEEP;
use crate::reading::lexemes;
use crate::refusal::{ParseKind, ParseRefusal};
use crate::run::run;
use rip_lexer::Token;
use rip_tree::Tree;
use std::alloc::Global;

/// The tree of a script, of which these are the tokens (ECMA-262 11 to 14), or why it has none. A script whose places
/// 32 bits cannot count is answered with want of memory.
pub fn parse(alloc: Global, text: &[u16], tokens: &[Token]) -> Result<Tree, ParseRefusal>
    requires tokens { IsTokens text.now tokens.now }

    // What is answered is so: the tree of a phrase that is not too deep, or the first lexeme with which no script goes on,
    // or the first node that is too deep. Only of want of memory nothing is said.
    ensures found { IfOk result (HasTree text.now tokens.now) }
    ensures refused { IfErr result (IsRefused text.now tokens.now) }

    // And it is so of each phrase of the script: they show one tree.
    ensures shown { (body : Phrase) → IsBody text.now tokens.now body
        → IfOk result (λ tree. ShowsScript text.now tree body) }
    ensures shallow { (body : Phrase) → IsBody text.now tokens.now body
        → IfOk result (λ tree. IsShallow body) }
    ensures deep { (body : Phrase) → IsBody text.now tokens.now body
        → IfErr result (IsTooDeep body) }
{
    let lexemes = lexemes(alloc, text, tokens)?;
    let events = run(alloc, lexemes.as_slice())?;
    match build(alloc, text, tokens, events.as_slice()) {
        Ok(built) => {
            if built.depth < TOO_DEEP {
                Ok(built.tree)
            } else {
                // There is such a node, since the tree is too deep.
                let first = first_too_deep(alloc, events.as_slice())?;
                Err(ParseRefusal::At {
                    place: first.unwrap_or(0),
                    kind: ParseKind::TooNested,
                })
            }
        }
        Err(BuildError::Memory) => Err(ParseRefusal::Memory),
        Err(BuildError::NoPhrase) => unreachable!(),
    }
}
