ghost use Rattle.std.specs.Prelude.{◌≡◌};
ghost use Rattle.rip_heap.specs.Growth.{Grows};
ghost use Rattle.rip_ops.specs.Numbers.{of_numbers, of_number};
ghost use Rattle.rip_ops.specs.Arithmetic.{negative, bits_not};
ghost use Rattle.rip_ops.specs.Operators.{binary, unary, calculated};
ghost use Rattle.rip_heap.specs.Outcome.{Answers};

use crate::addition::added;
use crate::arithmetic::{
    bits_and, bits_not, bits_or, bits_xor, difference, negative, product, quotient, remainder,
    shifted_left, shifted_right, shifted_right_unsigned,
};
use crate::equality::{loosely_equal, loosely_unequal};
use crate::instances::instance_of;
use crate::members::contained;
use crate::numbers::numbers_of;
use crate::order::{is_at_least, is_at_most, is_greater, is_less};
use rip_base::{BinaryOperator, Fault, Numeral, Value};
use rip_heap::{Abrupt, Heap, number_done, strictly_equal, to_boolean, to_number, truth_done};
use std::alloc::Global;

/// The operators of one operand that this crate answers (ECMA-262 11.4.6 to 11.4.9).
#[derive(Clone, Copy, Debug, PartialEq, Eq)]
pub enum UnaryOp {
    Plus,
    Minus,
    Not,
    BitNot,
}

/// What the operator answers of these operands, and the heap after it. An answer other than a value leaves the heap as
/// it was, and memory is never wanting.
pub fn binary(
    alloc: Global,
    heap: &mut Heap,
    op: BinaryOperator,
    a: Value,
    b: Value,
) -> Result<Value, Abrupt>
    ensures answers { Answers (binary heap.old op a b) heap.old result heap.new }
    ensures grows { Grows heap.old heap.new }
{
    match op {
        BinaryOperator::Add => added(alloc, heap, a, b),
        BinaryOperator::In => contained(alloc, heap, a, b),
        BinaryOperator::InstanceOf => instance_of(heap, a, b),
        BinaryOperator::Less => truth_done(heap, is_less(heap, a, b)),
        BinaryOperator::Greater => truth_done(heap, is_greater(heap, a, b)),
        BinaryOperator::LessOrEqual => truth_done(heap, is_at_most(heap, a, b)),
        BinaryOperator::GreaterOrEqual => truth_done(heap, is_at_least(heap, a, b)),
        BinaryOperator::Equal => truth_done(heap, loosely_equal(heap, a, b)),
        BinaryOperator::NotEqual => truth_done(heap, loosely_unequal(heap, a, b)),
        BinaryOperator::StrictEqual => Ok(Value::Bool(strictly_equal(heap, a, b))),
        BinaryOperator::StrictNotEqual => Ok(Value::Bool(!strictly_equal(heap, a, b))),
        BinaryOperator::Multiply
        | BinaryOperator::Divide
        | BinaryOperator::Remainder
        | BinaryOperator::Subtract
        | BinaryOperator::ShiftLeft
        | BinaryOperator::ShiftRight
        | BinaryOperator::ShiftRightUnsigned
        | BinaryOperator::BitAnd
        | BinaryOperator::BitXor
        | BinaryOperator::BitOr => number_done(heap, of_numbers(heap, op, a, b)),
    }
}

/// What the operator answers of this operand. The heap stays as it is.
pub fn unary(alloc: Global, heap: &mut Heap, op: UnaryOp, a: Value) -> Result<Value, Abrupt>
    ensures answers { Answers (unary heap.old op a) heap.old result heap.new }
    ensures grows { Grows heap.old heap.new }
{
    let _ = alloc;
    match op {
        UnaryOp::Plus => number_done(heap, to_number(heap, a)),
        UnaryOp::Minus => number_done(heap, negative_of(heap, a)),
        UnaryOp::BitNot => number_done(heap, bits_not_of(heap, a)),
        UnaryOp::Not => Ok(Value::Bool(!to_boolean(heap, a))),
    }
}

fn of_numbers(heap: &Heap, op: BinaryOperator, a: Value, b: Value) -> Result<Numeral, Fault>
    ensures { result ≡ of_numbers heap.now.pool (calculated op) a b }
{
    let (x, y) = numbers_of(heap, a, b)?;
    calculated(op, x, y)
}

fn calculated(op: BinaryOperator, x: Numeral, y: Numeral) -> Result<Numeral, Fault>
    ensures { result ≡ calculated op x y }
{
    match op {
        BinaryOperator::Multiply => product(x, y),
        BinaryOperator::Divide => quotient(x, y),
        BinaryOperator::Remainder => remainder(x, y),
        BinaryOperator::Subtract => difference(x, y),
        BinaryOperator::ShiftLeft => Ok(shifted_left(x, y)),
        BinaryOperator::ShiftRight => Ok(shifted_right(x, y)),
        BinaryOperator::ShiftRightUnsigned => Ok(shifted_right_unsigned(x, y)),
        BinaryOperator::BitAnd => Ok(bits_and(x, y)),
        BinaryOperator::BitXor => Ok(bits_xor(x, y)),
        BinaryOperator::BitOr => Ok(bits_or(x, y)),
        _ => Ok(Numeral::NaN),
    }
}

fn negative_of(heap: &Heap, a: Value) -> Result<Numeral, Fault>
    ensures { result ≡ of_number heap.now.pool negative a }
{
    let number = to_number(heap, a)?;
    Ok(negative(number))
}

fn bits_not_of(heap: &Heap, a: Value) -> Result<Numeral, Fault>
    ensures { result ≡ of_number heap.now.pool bits_not a }
{
    let number = to_number(heap, a)?;
    Ok(bits_not(number))
}
