ghost use Rattle.std.specs.Prelude.{◌≡◌, ℕ, List, Some, IfOk, bytes_eq, if◌then◌else◌, unwrap_or};
ghost use Rattle.std.specs.BTreeMap.{get_by};
ghost use Rattle.std.specs.Cmp.Lexicographic.{slice_cmp};
ghost use Rattle.std.specs.Ordering.{nat_cmp};
ghost use Rattle.rip_tree.specs.Firsts.{AreFirsts, name_piece};
ghost use Rattle.rip_tree.specs.Joining.{grove_of, IsJoined};

use crate::form::{Form, Key};
use crate::joined::Joined;
use crate::node::Piece;
use rip_base::NoMemory;
use std::alloc::Global;
use std::collections::BTreeMap;

/// Of each node of joined trees, in order, the first node that has the same name.
pub(crate) fn firsts_of(alloc: Global, trees: &Joined) -> Result<Vec<u32>, NoMemory>
    requires { IsJoined trees.now }
    ensures { IfOk result (λ firsts. AreFirsts (grove_of trees.now) firsts.items) }
{
    let mut firsts = Vec::with_capacity(alloc, trees.count() as usize)?;
    let mut noted = BTreeMap::new(alloc);
    for id in 0..trees.count() {
        let first = match name_piece(&trees.node(id).form) {
            Some(piece) => note(&mut noted, trees.units(piece), id)?,
            None => id,
        };
        firsts.push(first)?;
    }
    Ok(firsts)
}

/// The node that is noted for this name, or else this one, which is noted then.
fn note<'a>(noted: &mut BTreeMap<&'a [u16], u32>, name: &'a [u16], id: u32) -> Result<u32, NoMemory>
    ensures first { IfOk result (λ first. first ≡ unwrap_or
        (get_by (λ k. slice_cmp nat_cmp name.now k.now) noted.old) id) }
    ensures noted { IfOk result (λ first. (q : List ℕ) → get_by
        (λ k. slice_cmp nat_cmp q k.now) noted.new ≡ if bytes_eq name.now q then Some first
        else get_by (λ k. slice_cmp nat_cmp q k.now) noted.old) }
{
    if let Some(first) = noted.get(name) {
        return Ok(*first);
    }
    noted.insert(name, id)?;
    Ok(id)
}

/// The name that a node of this form has as a member or as an entry of an object literal.
fn name_piece(form: &Form) -> Option<Piece>
    ensures { result ≡ name_piece form.now }
{
    match form {
        Form::Member(name) => Some(*name),
        Form::Entry(Key::Name(name)) => Some(*name),
        Form::Entry(Key::Text(literal)) => Some(literal.value),
        _ => None,
    }
}
