ghost use Rattle.std.specs.Prelude.{◌≡◌, ◌≤◌, ◌<◌, ◌^◌, ℕ, List, length, IfOk, IfErr};
ghost use Rattle.rip_lexer.specs.Tokens.{IsTokens};
ghost use Rattle.rip_outer.specs.Reading.{longest_file};
ghost use Rattle.rip_grammar.specs.Phrases.{Phrase};
ghost use Rattle.rip_parser.specs.Parsed.{HasTree, IsBody};
ghost use Rattle.rip_parser.specs.Shows.{ShowsScript};
ghost use Rattle.rip_script.specs.Given.{HasItsTree, HasTokens, RefusesTokens, RefusesTree};
ghost use Rattle.rip_script.specs.Steps.{IsStop};
ghost use Rattle.rip_base.specs.Text.{IsSameText};

use crate::refusal::{Refusal, Stop};
use rip_base::{TextError, Units};
use rip_lexer::{LexRefusal, Tokens, tokens};
use rip_parser::{ParseRefusal, parse};
use rip_tree::Tree;
use std::alloc::Global;

/// A script: its units and its tokens.
#[derive(Debug, Drop)]
pub struct Script {
    pub units: Units,
    pub tokens: Tokens,
}

/// The units that the bytes spell.
fn read_units(alloc: Global, bytes: &[u8]) -> Result<Units, Stop>
    requires { length bytes.now ≤ longest_file }
    ensures spelled { IfOk result (λ units. IsSameText bytes.now units) }
    ensures short { IfOk result (λ units. length units < 2 ^ 32) }
    ensures refused { IfErr result (IsStop (RefusesTokens bytes.now)) }
{
    match Units::from_utf8(alloc, bytes) {
        Ok(units) => Ok(units),
        Err(TextError::NotUtf8) => Err(Stop::Refused(Refusal::NotUtf8)),
        Err(TextError::Memory) => Err(Stop::Memory),
        Err(TextError::LoneSurrogate) => unreachable!(),
    }
}

impl Script {
    /// The script that the bytes spell.
    pub fn read(alloc: Global, bytes: &[u8]) -> Result<Script, Stop>
        requires { length bytes.now ≤ longest_file }
        ensures script { IfOk result (λ script. HasTokens bytes.now script.units script.tokens) }
        ensures short { IfOk result (λ script. length script.units < 2 ^ 32) }
        ensures refused { IfErr result (IsStop (RefusesTokens bytes.now)) }
    {
        let units = match read_units(alloc, bytes) {
            Ok(units) => units,
            Err(stop) => return Err(stop),
        };
        match tokens(alloc, units.as_slice()) {
            Ok(tokens) => Ok(Script { units, tokens }),
            Err(LexRefusal::At { place, kind }) => Err(Stop::Refused(Refusal::Lex { place, kind })),
            Err(LexRefusal::Memory) => Err(Stop::Memory),
        }
    }

    /// The tree of the script.
    pub fn tree(&self, alloc: Global) -> Result<Tree, Stop>
        requires short { length self.now.units < 2 ^ 32 }
        requires tokens { IsTokens self.now.units self.now.tokens }
        ensures found { IfOk result (HasTree self.now.units self.now.tokens) }
        ensures shown { (body : Phrase) → IsBody self.now.units self.now.tokens body
            → IfOk result (λ tree. ShowsScript self.now.units tree body) }
        ensures refused { (bytes : List ℕ) → HasTokens bytes self.now.units self.now.tokens
            → IfErr result (IsStop (RefusesTree bytes)) }
    {
        match parse(alloc, self.units.as_slice(), self.tokens.as_slice()) {
            Ok(tree) => Ok(tree),
            Err(ParseRefusal::At { place, kind }) => Err(Stop::Refused(Refusal::Parse {
                place,
                kind,
            })),
            Err(ParseRefusal::Memory) => Err(Stop::Memory),
        }
    }
}

/// The tree of the script that the bytes spell.
pub fn read_tree(alloc: Global, bytes: &[u8]) -> Result<Tree, Stop>
    requires { length bytes.now ≤ longest_file }
    ensures tree { IfOk result (HasItsTree bytes.now) }
    ensures refused { IfErr result (IsStop (RefusesTree bytes.now)) }
{
    match Script::read(alloc, bytes) {
        Ok(script) => script.tree(alloc),
        Err(stop) => Err(stop),
    }
}
