ghost use Rattle.std.specs.Prelude.{◌≡◌, ◌<◌, false, ◌∷◌, [], Some, None, IfSome, IsTrue, MatchOption};
ghost use Rattle.rip_heap.specs.Growth.{Grows};
ghost use Rattle.rip_heap.specs.World.{World};
ghost use Rattle.rip_base.specs.declared.value.Value.{Value as ScriptValue};
ghost use Rattle.rip_base.specs.declared.value.Value.TheVariants.{Undefined};
ghost use Rattle.rip_heap.specs.Outcome.{Gives};
ghost use Rattle.rip_ops.specs.Operators.{binary};
ghost use Rattle.rip_eval_rows.specs.Row.{Ends, with_value};
ghost use Rattle.rip_eval_in_place.specs.InPlace.{IsDone, IsDoneWithin, IsTried, RowIsTried};
ghost use Rattle.rip_eval_language.specs.Reading.{child, child_at, children_from, form_of, operator, part, target_at};
ghost use Rattle.rip_eval_language.specs.Rows.Expressions.{assign_row, compound_row, gives, step_row, target_found, writes};
ghost use Rattle.rip_eval_language.specs.Rows.Statements.{block_row, branch_of, expression_row, if_row, is_declaration, is_for, return_end, return_row, var_row};
ghost use Rattle.rip_eval_language.specs.Table.{row, row_by};

use crate::had::{calculated, had_inside, had_part};
use crate::referred::{done_reference, done_target, valued};
use rip_base::Value;
use rip_eval_language::{
    Source, Worth, is_declaration, is_for, numbers_of_step, target_found, truth_of, write,
};
use rip_eval_rows::{Completed, Completion, Part, Role};
use rip_heap::{Heap, Reference};
use rip_ops::access::{Written, write as put};
use rip_tree::Form;

/// What a part comes to for which some depth is left, where all that it takes can be done in place: the nodes below it are
/// no higher than this, there are units for each, nothing is thrown, and no more than one name is written, at the end. Of
/// any part it may be none, and then nothing is changed: the texts that were made are taken back.
pub fn done(p: &Source, heap: &mut Heap, at: &Part, height: u32, left: u64) -> Option<Completed>
    requires some { 0 < at.now.room }
    requires unit { 0 < left }
    ensures done { IsDone p.now at.now heap.old result heap.new }
    ensures within { IsDoneWithin left result }
    ensures grows { Grows heap.old heap.new }
{
    let mark = heap.mark();
    let done = tried(p, heap, at, height, left);
    if done.is_none() {
        heap.cut_back(mark);
    }
    done
}

/// The same, where texts that were made stay where it is none.
#[cycle(in_place)]
fn tried(p: &Source, heap: &mut Heap, at: &Part, height: u32, left: u64) -> Option<Completed>
    requires some { 0 < at.now.room }
    requires unit { 0 < left }
    ensures done { IsTried p.now at.now heap.old result heap.new }
    ensures within { IsDoneWithin left result }
    ensures grows { Grows heap.old heap.new }
{
    match p.worth(at.node) {
        Worth::Nothing => None,
        Worth::Value(_) => match at.role {
            Role::Value => valued(had_part(p, heap, at, height, left)),
            _ => done_reference(p, heap, at, height, left),
        },
        Worth::Deed(_) => done_by_form(p, heap, at, &p.form(at.node), height, left),
    }
}

/// The same by the form of the node.
#[cycle(in_place)]
fn done_by_form(
    p: &Source,
    heap: &mut Heap,
    at: &Part,
    form: &Form,
    height: u32,
    left: u64,
) -> Option<Completed>
    requires unit { 0 < left }
    ensures done { RowIsTried p.now (row_by p.now at.now form.now heap.old) heap.old result
        heap.new }
    ensures within { IsDoneWithin left result }
    ensures grows { Grows heap.old heap.new }
{
    match form {
        Form::Expression => done_expression(p, heap, at, height, left),
        Form::Block => done_block(p, heap, at, height, left),
        Form::Var => done_var(p, heap, at, height, left),
        Form::If => done_if(p, heap, at, height, left),
        Form::Return => done_return(p, heap, at, height, left),
        Form::Assign => done_assign(p, heap, at, height, left),
        Form::Compound(_) => done_compound(p, heap, at, height, left),
        Form::Prefix(_) | Form::Postfix(_) => done_step(p, heap, at, left),
        Form::Break => ended(Completion::Broken),
        Form::Continue => ended(Completion::Continued),
        _ => None,
    }
}

/// What a node inside the open part comes to.
#[cycle(in_place)]
fn done_inside(
    p: &Source,
    heap: &mut Heap,
    at: &Part,
    node: u32,
    height: u32,
    left: u64,
) -> Option<Completed>
    ensures done { IsTried p.now (part at.now node) heap.old result heap.new }
    ensures within { IsDoneWithin left result }
    ensures grows { Grows heap.old heap.new }
{
    if height == 0 || left == 0 || at.room < 2 {
        return None;
    }
    tried(p, heap, &at.inside(&at.inner(node)), height - 1, left)
}

/// A part that ends at once.
fn ended(completion: Completion) -> Option<Completed>
    ensures { result ≡ Some (record { completion = completion; units = 1 }) }
{
    Some(Completed {
        completion,
        units: 1,
    })
}

// STATEMENTS

#[cycle(in_place)]
fn done_expression(
    p: &Source,
    heap: &mut Heap,
    at: &Part,
    height: u32,
    left: u64,
) -> Option<Completed>
    requires unit { 0 < left }
    ensures done { RowIsTried p.now (expression_row p.now at.now heap.old) heap.old result heap.new }
    ensures within { IsDoneWithin left result }
    ensures grows { Grows heap.old heap.new }
{
    match done_inside(p, heap, at, p.child(at.node, 0), height, left - 1) {
        Some(inner) => Some(Completed {
            completion: expression_end(&inner.completion),
            units: 1 + inner.units,
        }),
        None => None,
    }
}

/// An expression statement ends with no value.
fn expression_end(c: &Completion) -> Completion
    ensures { (w : World) → with_value c.now w (λ _. gives Undefined w) ≡ Ends result w }
{
    match c {
        Completion::Normal(_) => Completion::Normal(Value::Undefined),
        _ => *c,
    }
}

#[cycle(in_place)]
fn done_block(p: &Source, heap: &mut Heap, at: &Part, height: u32, left: u64) -> Option<Completed>
    requires unit { 0 < left }
    ensures done { RowIsTried p.now (block_row p.now at.now heap.old) heap.old result heap.new }
    ensures within { IsDoneWithin left result }
    ensures grows { Grows heap.old heap.new }
{
    match only_statement(p, at) {
        Some(statement) => match done_inside(p, heap, at, statement, height, left - 1) {
            Some(inner) => Some(Completed {
                completion: expression_end(&inner.completion),
                units: 1 + inner.units,
            }),
            None => None,
        },
        None => None,
    }
}

/// The only statement of a block that has one.
fn only_statement(p: &Source, at: &Part) -> Option<u32>
    ensures { IfSome result (λ s. (children_from p.now at.now.node 0 ≡ s ∷ [])
        × (is_declaration (form_of p.now s) ≡ false)) }
{
    match p.child_at(at.node, 0) {
        Some(statement) => match p.child_at(at.node, 1) {
            Some(_) => None,
            None => {
                if is_declaration(p.form(statement)) {
                    return None;
                }
                Some(statement)
            },
        },
        None => None,
    }
}

fn done_var(p: &Source, heap: &mut Heap, at: &Part, height: u32, left: u64) -> Option<Completed>
    requires unit { 0 < left }
    ensures done { RowIsTried p.now (var_row p.now at.now heap.old) heap.old result heap.new }
    ensures within { IsDoneWithin left result }
    ensures grows { Grows heap.old heap.new }
{
    match only_initialiser(p, at) {
        Some(e) => match had_inside(p, heap, at, e, height, left - 1) {
            Some(had) => match write(heap, at.scope, p.scoping(p.child(at.node, 0)), had.value) {
                Ok(()) => Some(Completed {
                    completion: Completion::Normal(Value::Undefined),
                    units: 1 + had.units,
                }),
                Err(_) => None,
            },
            None => None,
        },
        None => None,
    }
}

/// The initialiser of the only declarator of a `var` statement that has one.
fn only_initialiser(p: &Source, at: &Part) -> Option<u32>
    ensures { IfSome result (λ e. (is_for (form_of p.now at.now.node) ≡ false)
        × (children_from p.now at.now.node 0 ≡ child p.now at.now.node 0 ∷ [])
        × (child_at p.now (child p.now at.now.node 0) 0 ≡ Some e)) }
{
    if is_for(p.form(at.node)) {
        return None;
    }
    match p.child_at(at.node, 0) {
        Some(declarator) => match p.child_at(at.node, 1) {
            Some(_) => None,
            None => p.child_at(declarator, 0),
        },
        None => None,
    }
}

#[cycle(in_place)]
fn done_if(p: &Source, heap: &mut Heap, at: &Part, height: u32, left: u64) -> Option<Completed>
    requires unit { 0 < left }
    ensures done { RowIsTried p.now (if_row p.now at.now heap.old) heap.old result heap.new }
    ensures within { IsDoneWithin left result }
    ensures grows { Grows heap.old heap.new }
{
    let test = match had_inside(p, heap, at, p.child(at.node, 0), height, left - 1) {
        Some(test) => test,
        None => return None,
    };
    match branch_of(p, heap, at, &test.value) {
        Some(branch) => match done_inside(p, heap, at, branch, height, left - 1 - test.units) {
            Some(last) => Some(Completed {
                completion: last.completion,
                units: 1 + test.units + last.units,
            }),
            None => None,
        },
        None => Some(Completed {
            completion: Completion::Normal(Value::Undefined),
            units: 1 + test.units,
        }),
    }
}

/// The statement that an `if` goes on with, or none.
fn branch_of(p: &Source, heap: &Heap, at: &Part, test: &Value) -> Option<u32>
    ensures { result ≡ branch_of p.now at.now test.now heap.now }
{
    if truth_of(heap, test) {
        Some(p.child(at.node, 1))
    } else {
        p.child_at(at.node, 2)
    }
}

#[cycle(in_place)]
fn done_return(p: &Source, heap: &mut Heap, at: &Part, height: u32, left: u64) -> Option<Completed>
    requires unit { 0 < left }
    ensures done { RowIsTried p.now (return_row p.now at.now heap.old) heap.old result heap.new }
    ensures within { IsDoneWithin left result }
    ensures grows { Grows heap.old heap.new }
{
    match p.child_at(at.node, 0) {
        Some(e) => match done_inside(p, heap, at, e, height, left - 1) {
            Some(inner) => Some(Completed {
                completion: returned(&inner.completion),
                units: 1 + inner.units,
            }),
            None => None,
        },
        None => ended(Completion::Returned(Value::Undefined)),
    }
}

fn returned(c: &Completion) -> Completion
    ensures { (w : World) → return_end c.now w ≡ Ends result w }
{
    match c {
        Completion::Normal(v) => Completion::Returned(*v),
        _ => *c,
    }
}

// ASSIGNMENT TO NAMES

/// Whether the target of a node is a name, which is not read where it is entered.
fn is_name(p: &Source, at: &Part) -> bool
    ensures { IsTrue result → (w : World) → row p.now (target_at p.now at.now 0) w
        ≡ gives Undefined w }
{
    matches!(p.form(p.child(at.node, 0)), Form::Name(_))
}

/// A value is written to the name that is the target of a node, and the row gives another value or the same.
fn done_write(
    p: &Source,
    heap: &mut Heap,
    at: &Part,
    v: &Value,
    given: &Value,
    units: u64,
) -> Option<Completed>
    ensures done { MatchOption result (heap.new ≡ heap.old)
        (λ d. (writes p.now at.now None v.now given.now heap.old ≡ Ends d.completion heap.new)
        × (d.units ≡ units)) }
    ensures grows { Grows heap.old heap.new }
{
    match write(heap, at.scope, p.scoping(p.child(at.node, 0)), *v) {
        Ok(()) => Some(Completed {
            completion: Completion::Normal(*given),
            units,
        }),
        Err(_) => None,
    }
}

fn done_assign(p: &Source, heap: &mut Heap, at: &Part, height: u32, left: u64) -> Option<Completed>
    requires unit { 0 < left }
    ensures done { RowIsTried p.now (assign_row p.now at.now heap.old) heap.old result heap.new }
    ensures within { IsDoneWithin left result }
    ensures grows { Grows heap.old heap.new }
{
    if left == 1 {
        return None;
    }
    if !is_name(p, at) {
        return done_to_member(p, heap, at, height, left);
    }
    match had_inside(p, heap, at, p.child(at.node, 1), height, left - 2) {
        Some(had) => done_write(p, heap, at, &had.value, &had.value, had.units + 2),
        None => None,
    }
}

/// An assignment whose target is a member.
fn done_to_member(
    p: &Source,
    heap: &mut Heap,
    at: &Part,
    height: u32,
    left: u64,
) -> Option<Completed>
    requires unit { 0 < left }
    ensures done { RowIsTried p.now (assign_row p.now at.now heap.old) heap.old result heap.new }
    ensures within { IsDoneWithin left result }
    ensures grows { Grows heap.old heap.new }
{
    let target = match done_target(p, heap, at, height, left - 1) {
        Some(target) => target,
        None => return None,
    };
    let taken = target.units;
    match &target.completion {
        Completion::Referred(member) => {
            match had_inside(p, heap, at, p.child(at.node, 1), height, left - 1 - taken) {
                Some(had) => done_put(p, heap, at, member, &had.value, 1 + taken + had.units),
                None => None,
            }
        },
        _ => None,
    }
}

/// A value is written to the member that is the target of a node.
fn done_put(
    p: &Source,
    heap: &mut Heap,
    at: &Part,
    member: &Reference,
    v: &Value,
    units: u64,
) -> Option<Completed>
    ensures done { MatchOption result (heap.new ≡ heap.old)
        (λ d. (writes p.now at.now (Some member.now) v.now v.now heap.old
        ≡ Ends d.completion heap.new) × (d.units ≡ units)) }
    ensures grows { Grows heap.old heap.new }
{
    match put(p.alloc(), heap, member.base, member.key, *v) {
        Ok(Written::Done) => Some(Completed {
            completion: Completion::Normal(*v),
            units,
        }),
        Ok(Written::Host { .. }) => None,
        Err(_) => None,
    }
}

fn done_compound(
    p: &Source,
    heap: &mut Heap,
    at: &Part,
    height: u32,
    left: u64,
) -> Option<Completed>
    requires unit { 0 < left }
    ensures done { RowIsTried p.now (compound_row p.now at.now heap.old) heap.old result heap.new }
    ensures within { IsDoneWithin left result }
    ensures grows { Grows heap.old heap.new }
{
    if left == 1 || !is_name(p, at) {
        return None;
    }
    let Some(old) = target_found(p, heap, at) else {
        return None;
    };
    match had_inside(p, heap, at, p.child(at.node, 1), height, left - 2) {
        Some(had) => match calculated(p.alloc(), heap, p.operator(at.node), old, had.value) {
            Some(v) => done_write(p, heap, at, &v, &v, had.units + 2),
            None => None,
        },
        None => None,
    }
}

fn done_step(p: &Source, heap: &mut Heap, at: &Part, left: u64) -> Option<Completed>
    requires unit { 0 < left }
    ensures done { RowIsTried p.now (step_row p.now at.now heap.old) heap.old result heap.new }
    ensures within { IsDoneWithin left result }
    ensures grows { Grows heap.old heap.new }
{
    if left == 1 || at.room < 2 || !is_name(p, at) {
        return None;
    }
    match target_found(p, heap, at) {
        Some(v) => match numbers_of_step(heap, p.step_operator(at.node), v) {
            Ok((old, new)) => {
                let given = if p.is_postfix(at.node) { old } else { new };
                done_write(p, heap, at, &new, &given, 2)
            },
            Err(_) => None,
        },
        None => None,
    }
}
