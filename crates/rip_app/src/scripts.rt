ghost use Rattle.std.specs.Prelude.{◌≡◌, ◌≤◌, IfErr, IfOk, List as Items, length};
ghost use Rattle.rip_early.specs.Mistakes.{AreClean};
ghost use Rattle.rip_early.specs.Program.{program_of};
ghost use Rattle.rip_tree.specs.Branches.{Plant};
ghost use Rattle.rip_app.specs.App.{AreSound, HasTreeAt, HaveTrees};
ghost use Rattle.rip_app.specs.Script.{RefusesProgram, RefusesScriptAt, RefusesScripts, RefusesTrees};

use crate::refusal::AppRefusal;
use crate::script::tree_of;
use rip_base::{List, Page};
use rip_early::check;
use rip_tree::{Program, Tree, Trees};
use std::alloc::Global;

/// The program of the page's scripts, or the first cause why they have none.
pub fn program_of(alloc: Global, page: &Page) -> Result<Program, AppRefusal>
    ensures made { IfOk result
        (λ program. (trees : Items Plant) × AreSound page.now trees
        × (program ≡ program_of trees)) }
    ensures refused { IfErr result (RefusesProgram page.now) }
{
    let trees = trees_of(alloc, page)?;
    checked(alloc, &trees)
}

/// The trees of the page's scripts, in their order.
fn trees_of(alloc: Global, page: &Page) -> Result<Trees, AppRefusal>
    ensures trees { IfOk result (HaveTrees page.now) }
    ensures refused { IfErr result (RefusesScripts page.now) }
{
    let mut trees = Vec::new(alloc);
    for place in 0..page.script_count() {
        trees.push(tree_at(alloc, page, place + 1)?)?;
    }
    Ok(List::from_vec(trees))
}

/// The tree of the page's script with this number.
fn tree_at(alloc: Global, page: &Page, number: u32) -> Result<Tree, AppRefusal>
    requires from_one { 1 ≤ number }
    requires there { number ≤ length page.now.scripts }
    ensures tree { IfOk result (HasTreeAt page.now number) }
    ensures refused { IfErr result (RefusesScriptAt page.now number) }
{
    tree_of(alloc, number, page.script(number).as_slice())
}

/// The program of scripts with these trees.
fn checked(alloc: Global, trees: &Trees) -> Result<Program, AppRefusal>
    ensures clean { IfOk result (λ program. AreClean trees.now) }
    ensures made { IfOk result (λ program. program ≡ program_of trees.now) }
    ensures refused { IfErr result (RefusesTrees trees.now) }
{
    match check(alloc, trees) {
        Ok(program) => Ok(program),
        Err(refusal) => Err(AppRefusal::of_mistake(refusal)),
    }
}
