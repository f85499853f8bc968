ghost use Rattle.std.specs.Prelude.{[]};
ghost use Rattle.rip_heap.specs.Growth.{Grows};
ghost use Rattle.rip_eval_language.specs.Does.{Does, DoesPurely};
ghost use Rattle.rip_eval_language.specs.Rows.Expressions.{binary_row, comma_row, conditional_row, is_decided, logical_row};
ghost use Rattle.rip_eval_language.specs.Table.{own_rest};

use rip_base::Value;
use rip_eval_language::answers::{abrupt, ask, end, give};
use rip_eval_language::{Source, is_decided, truth_of, value_of};
use rip_eval_rows::{Completion, Next, OwnWait, Part};
use rip_heap::{Heap, to_boolean};
use rip_ops::binary;

/// An operator of two operands begins with its left one (11.5 to 11.10).
pub fn begin_binary(p: &Source, at: &Part) -> Next
    ensures row { DoesPurely p.now at.now result (binary_row p.now at.now) }
{
    ask(p.part_at(at, 0), OwnWait::Left)
}

/// Behind the left operand comes the right one.
pub fn after_left(p: &Source, at: &Part, c: &Completion) -> Next
    ensures row { DoesPurely p.now at.now result (own_rest p.now at.now OwnWait.Left [] c.now) }
{
    match value_of(c) {
        Some(left) => ask(p.part_at(at, 1), OwnWait::Right { left }),
        None => end(c),
    }
}

/// Behind the right operand the operator is applied.
pub fn after_right(p: &Source, heap: &mut Heap, at: &Part, left: Value, c: &Completion) -> Next
    ensures row { Does p.now at.now result heap.new
        (own_rest p.now at.now (OwnWait.Right left) [] c.now heap.old) }
    ensures grows { Grows heap.old heap.new }
{
    match value_of(c) {
        Some(right) => match binary(p.alloc(), heap, p.operator(at.node), left, right) {
            Ok(v) => give(v),
            Err(cause) => abrupt(p.alloc(), heap, cause),
        },
        None => end(c),
    }
}

/// `&&` and `||` begin with their left operand (11.11).
pub fn begin_logical(p: &Source, at: &Part) -> Next
    ensures row { DoesPurely p.now at.now result (logical_row p.now at.now) }
{
    ask(p.part_at(at, 0), OwnWait::LogicalLeft)
}

/// Behind the left operand of `&&` or `||` it is the value, or the right one is asked for.
pub fn after_logical_left(p: &Source, heap: &Heap, at: &Part, c: &Completion) -> Next
    ensures row { Does p.now at.now result heap.now
        (own_rest p.now at.now OwnWait.LogicalLeft [] c.now heap.now) }
{
    match value_of(c) {
        Some(left) => {
            if is_decided(p.logical_operator(at.node), truth_of(heap, &left)) {
                give(left)
            } else {
                ask(p.part_at(at, 1), OwnWait::Last)
            }
        },
        None => end(c),
    }
}

/// `?:` begins with its test (11.12).
pub fn begin_conditional(p: &Source, at: &Part) -> Next
    ensures row { DoesPurely p.now at.now result (conditional_row p.now at.now) }
{
    ask(p.part_at(at, 0), OwnWait::ConditionalTest)
}

/// Behind the test of `?:` comes the operand that it chooses.
pub fn after_conditional_test(p: &Source, heap: &Heap, at: &Part, c: &Completion) -> Next
    ensures row { Does p.now at.now result heap.now
        (own_rest p.now at.now OwnWait.ConditionalTest [] c.now heap.now) }
{
    match value_of(c) {
        Some(test) => {
            let place = if to_boolean(heap, test) { 1 } else { 2 };
            ask(p.part_at(at, place), OwnWait::Last)
        },
        None => end(c),
    }
}

/// A comma begins with its left operand (11.14).
pub fn begin_comma(p: &Source, at: &Part) -> Next
    ensures row { DoesPurely p.now at.now result (comma_row p.now at.now) }
{
    ask(p.part_at(at, 0), OwnWait::CommaLeft)
}

/// Behind the left operand of a comma comes the right one.
pub fn after_comma_left(p: &Source, at: &Part, c: &Completion) -> Next
    ensures row { DoesPurely p.now at.now result
        (own_rest p.now at.now OwnWait.CommaLeft [] c.now) }
{
    match value_of(c) {
        Some(_) => ask(p.part_at(at, 1), OwnWait::Last),
        None => end(c),
    }
}
