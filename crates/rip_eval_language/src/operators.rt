ghost use Rattle.std.specs.Prelude.{◌≡◌, pos};
ghost use Rattle.rip_eval_language.specs.Rows.Expressions.{is_decided, is_delete, is_type_of, numbers_of_step, step_by};

use rip_base::{Fault, LogicalOperator, Numeral, StepOperator, UnaryOperator, Value, Whole};
use rip_heap::{Heap, to_number};
use rip_ops::{difference, sum};

/// Whether the left operand decides (ECMA-262 11.11).
pub fn is_decided(op: LogicalOperator, truth: bool) -> bool
    ensures { result ≡ is_decided op truth }
{
    match op {
        LogicalOperator::And => !truth,
        LogicalOperator::Or => truth,
    }
}

/// Whether an operator is `delete` (ECMA-262 11.4.1).
pub fn is_delete(op: UnaryOperator) -> bool
    ensures { result ≡ is_delete op }
{
    matches!(op, UnaryOperator::Delete)
}

/// Whether an operator is `typeof` (ECMA-262 11.4.3).
pub fn is_type_of(op: UnaryOperator) -> bool
    ensures { result ≡ is_type_of op }
{
    matches!(op, UnaryOperator::TypeOf)
}

/// The number that a value is, and that one up or down, as values.
pub fn numbers_of_step(heap: &Heap, op: StepOperator, v: Value) -> Result<(Value, Value), Fault>
    ensures { result ≡ numbers_of_step heap.now op v }
{
    match to_number(heap, v) {
        Ok(old) => match step_by(op, &old) {
            Ok(new) => Ok((Value::from(old), Value::from(new))),
            Err(fault) => Err(fault),
        },
        Err(fault) => Err(fault),
    }
}

fn step_by(op: StepOperator, n: &Numeral) -> Result<Numeral, Fault>
    ensures { result ≡ step_by op n.now }
{
    match op {
        StepOperator::Increment => sum(*n, one()),
        StepOperator::Decrement => difference(*n, one()),
    }
}

fn one() -> Numeral
    ensures { result ≡ Numeral.Num (pos 1) }
{
    match Whole::new(1) {
        Some(whole) => Numeral::Num(whole),
        None => Numeral::NaN,
    }
}
