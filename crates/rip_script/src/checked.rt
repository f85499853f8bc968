ghost use Rattle.std.specs.Prelude.{◌≡◌, ◌≤◌, ◌∷◌, [], ℕ, List as Items, length, IfErr, IfOk};
ghost use Rattle.rip_outer.specs.Reading.{longest_file};
ghost use Rattle.rip_tree.specs.Branches.{Plant};
ghost use Rattle.rip_script.specs.Given.{HasItsTree, RefusesRun};
ghost use Rattle.rip_script.specs.Steps.{IsChecked, IsStop};

use crate::read::read_tree;
use crate::refusal::{Refusal, Stop};
use rip_base::{List, NoMemory};
use rip_early::{EarlyRefusal, check};
use rip_tree::{Program, Tree, Trees};
use std::alloc::Global;

/// The program of the script that the bytes spell, which has no early error.
pub fn read_program(alloc: Global, bytes: &[u8]) -> Result<Program, Stop>
    requires { length bytes.now ≤ longest_file }
    ensures checked { IfOk result
        (λ program. (tree : Plant) × HasItsTree bytes.now tree × IsChecked tree program) }
    ensures refused { IfErr result (IsStop (RefusesRun bytes.now)) }
{
    match read_tree(alloc, bytes) {
        Ok(tree) => checked_program(alloc, tree),
        Err(stop) => Err(stop),
    }
}

/// The program of the script of this tree.
fn checked_program(alloc: Global, tree: Tree) -> Result<Program, Stop>
    ensures checked { IfOk result (IsChecked tree) }
    ensures refused { (bytes : Items ℕ) → HasItsTree bytes tree
        → IfErr result (IsStop (RefusesRun bytes)) }
{
    let Ok(trees) = only(alloc, tree) else {
        return Err(Stop::Memory);
    };
    match check(alloc, &trees) {
        Ok(program) => Ok(program),
        Err(
            EarlyRefusal::At {
                script: _,
                place,
                kind,
            },
        ) => Err(Stop::Refused(Refusal::Early { place, kind })),
        Err(EarlyRefusal::Memory) => Err(Stop::Memory),
    }
}

/// A list of this tree alone.
fn only(alloc: Global, tree: Tree) -> Result<Trees, NoMemory>
    ensures { IfOk result (λ trees. trees ≡ tree ∷ []) }
{
    let mut trees = Vec::new(alloc);
    trees.push(tree)?;
    Ok(List::from_vec(trees))
}
