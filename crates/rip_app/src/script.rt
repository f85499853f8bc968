ghost use Rattle.std.specs.Prelude.{IfErr, IfOk};
ghost use Rattle.rip_parser.specs.Parsed.{IsTreeOf};
ghost use Rattle.rip_app.specs.Script.{RefusesScript};

use crate::refusal::AppRefusal;
use rip_lexer::tokens;
use rip_parser::parse;
use rip_tree::Tree;
use std::alloc::Global;

/// The tree of the script with this number, or why it has none.
pub fn tree_of(alloc: Global, number: u32, script: &[u16]) -> Result<Tree, AppRefusal>
    ensures tree { IfOk result (IsTreeOf script.now) }
    ensures refused { IfErr result (RefusesScript number script.now) }
{
    let tokens = match tokens(alloc, script) {
        Ok(tokens) => tokens,
        Err(refusal) => return Err(AppRefusal::of_tokens(number, refusal)),
    };
    match parse(alloc, script, tokens.as_slice()) {
        Ok(tree) => Ok(tree),
        Err(refusal) => Err(AppRefusal::of_tree(number, refusal)),
    }
}
