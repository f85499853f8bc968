ghost use Rattle.std.specs.Prelude.{◌≡◌, ◌<◌, Some, IfSome, IsTrue};
ghost use Rattle.rip_base.specs.declared.value.Value.{Value as ScriptValue};
ghost use Rattle.rip_heap.specs.Outcome.{Gives, number_or_fault, truth_or_fault};
ghost use Rattle.rip_heap.specs.World.{World};
ghost use Rattle.rip_ops.specs.Keys.{Keys, indexed, key_of, named};
ghost use Rattle.rip_ops.specs.Reading.{read};
ghost use Rattle.rip_ops.specs.Operators.{binary};
ghost use Rattle.rip_eval_rows.specs.Row.{Ends};
ghost use Rattle.rip_eval_in_place.specs.InPlace.{IsHad, IsWithin, RowIsHad};
ghost use Rattle.rip_eval_in_place.specs.AddedTexts.{AddsTexts};
ghost use Rattle.rip_eval_language.specs.Reading.{Loaded, part};
ghost use Rattle.rip_eval_language.specs.Rows.Expressions.{binary_row, conditional_row, gives, logical_row, name_row, operated, unary_row};
ghost use Rattle.rip_eval_language.specs.Rows.Members.{index_row, member_row};
ghost use Rattle.rip_eval_language.specs.Table.{row_by};

use rip_base::{BinaryOperator, Fault, Numeral, UnaryOperator, Value, Whole};
use rip_eval_language::{Source, found, is_decided, is_delete, is_type_of, truth_of};
use rip_eval_rows::{Completion, Part, Role};
use rip_heap::{Heap, Key, is_index, strictly_equal, to_boolean, to_number};
use rip_ops::access::{Base, Read, base_of, read};
use rip_ops::{
    added, bits_and, bits_not, bits_or, bits_xor, difference, is_at_least, is_at_most, is_greater,
    is_less, loosely_equal, loosely_unequal, negative, product, quotient, remainder, shifted_left,
    shifted_right, shifted_right_unsigned, sum,
};
use rip_tree::Form;
use std::alloc::Global;

/// A value that was had in place, with so many units, and with no change but texts that were added.
#[derive(Clone, Copy)]
pub(crate) struct Had {
    pub value: Value,
    pub units: u64,
}

/// The value of a part for which some depth is left, where all that it takes can be had in place: the nodes below it are
/// no higher than this, and there are units for each. Of any part it may be none.
#[cycle(had)]
pub(crate) fn had_part(
    p: &Source,
    heap: &mut Heap,
    at: &Part,
    height: u32,
    left: u64,
) -> Option<Had>
    requires some { 0 < at.now.room }
    requires unit { 0 < left }
    ensures had { IsHad p.now at.now heap.old result heap.new }
    ensures texts { AddsTexts heap.old heap.new }
    ensures within { IsWithin left result }
{
    had_by_form(p, heap, at, &p.form(at.node), height, left)
}

/// The same by the form of the node.
#[cycle(had)]
pub(crate) fn had_by_form(
    p: &Source,
    heap: &mut Heap,
    at: &Part,
    form: &Form,
    height: u32,
    left: u64,
) -> Option<Had>
    requires unit { 0 < left }
    ensures had { RowIsHad p.now (row_by p.now at.now form.now heap.old) result heap.new }
    ensures texts { AddsTexts heap.old heap.new }
    ensures within { IsWithin left result }
{
    match form {
        Form::Name(_) => leaf(value_of_name(p, heap, at)?),
        Form::Number(number) => leaf(Value::Num(*number)),
        Form::Text(_) => leaf(Value::Text(p.literal(at.node))),
        Form::This => leaf(at.this),
        Form::Boolean(b) => leaf(Value::Bool(*b)),
        Form::Null => leaf(Value::Null),
        Form::Binary(_) => had_binary(p, heap, at, height, left),
        Form::Logical(_) => had_logical(p, heap, at, height, left),
        Form::Conditional => had_conditional(p, heap, at, height, left),
        Form::Unary(_) => had_unary(p, heap, at, height, left),
        Form::Member(_) => had_member(p, heap, at, height, left),
        Form::Index => had_index(p, heap, at, height, left),
        _ => None,
    }
}

/// The value of a node inside the open part.
#[cycle(had)]
pub(crate) fn had_inside(
    p: &Source,
    heap: &mut Heap,
    at: &Part,
    node: u32,
    height: u32,
    left: u64,
) -> Option<Had>
    ensures had { IsHad p.now (part at.now node) heap.old result heap.new }
    ensures texts { AddsTexts heap.old heap.new }
    ensures within { IsWithin left result }
{
    if height == 0 || left == 0 || at.room < 2 {
        return None;
    }
    match p.form(node) {
        Form::Name(_) => match name_inside(p, heap, at, node) {
            Some(value) => leaf(value),
            None => None,
        },
        Form::Number(number) => leaf(Value::Num(number)),
        _ => had_part(p, heap, &at.inside(&at.inner(node)), height - 1, left),
    }
}

// LEAVES

/// A part that ends with its value at once.
fn leaf(value: Value) -> Option<Had>
    ensures { result ≡ Some (record { value = value; units = 1 }) }
{
    Some(Had { value, units: 1 })
}

/// The value of a name that is bound. Of a target the value is nobody's.
fn value_of_name(p: &Source, heap: &Heap, at: &Part) -> Option<Value>
    ensures { IfSome result (λ v. name_row p.now at.now at.now.role heap.now
        ≡ Ends (Completion.Normal v) heap.now) }
{
    match at.role {
        Role::Value | Role::Callee => found(heap, at.scope, p.resolved(at.node)),
        Role::Target => Some(Value::Undefined),
    }
}

/// The value of a name inside the open part, where it is bound.
fn name_inside(p: &Source, heap: &Heap, at: &Part, node: u32) -> Option<Value>
    ensures { IfSome result (λ v. name_row p.now (part at.now node) Role.Value heap.now
        ≡ Ends (Completion.Normal v) heap.now) }
{
    found(heap, at.scope, p.resolved(node))
}

// OPERATORS

#[cycle(had)]
fn had_binary(p: &Source, heap: &mut Heap, at: &Part, height: u32, left: u64) -> Option<Had>
    requires unit { 0 < left }
    ensures had { RowIsHad p.now (binary_row p.now at.now heap.old) result heap.new }
    ensures texts { AddsTexts heap.old heap.new }
    ensures within { IsWithin left result }
{
    let op = p.operator(at.node);
    let right = p.child(at.node, 1);
    let a = had_inside(p, heap, at, p.child(at.node, 0), height, left - 1)?;
    let b = had_inside(p, heap, at, right, height, left - 1 - a.units)?;
    let value = calculated(p.alloc(), heap, op, a.value, b.value)?;
    Some(Had {
        value,
        units: 1 + a.units + b.units,
    })
}

#[cycle(had)]
fn had_logical(p: &Source, heap: &mut Heap, at: &Part, height: u32, left: u64) -> Option<Had>
    requires unit { 0 < left }
    ensures had { RowIsHad p.now (logical_row p.now at.now heap.old) result heap.new }
    ensures texts { AddsTexts heap.old heap.new }
    ensures within { IsWithin left result }
{
    let second = p.child(at.node, 1);
    let a = had_inside(p, heap, at, p.child(at.node, 0), height, left - 1)?;
    if is_decided(p.logical_operator(at.node), truth_of(heap, &a.value)) {
        return Some(Had {
            value: a.value,
            units: 1 + a.units,
        });
    }
    let b = had_inside(p, heap, at, second, height, left - 1 - a.units)?;
    Some(Had {
        value: b.value,
        units: 1 + a.units + b.units,
    })
}

#[cycle(had)]
fn had_conditional(p: &Source, heap: &mut Heap, at: &Part, height: u32, left: u64) -> Option<Had>
    requires unit { 0 < left }
    ensures had { RowIsHad p.now (conditional_row p.now at.now heap.old) result heap.new }
    ensures texts { AddsTexts heap.old heap.new }
    ensures within { IsWithin left result }
{
    let test = had_inside(p, heap, at, p.child(at.node, 0), height, left - 1)?;
    let place = if truth_of(heap, &test.value) { 1 } else { 2 };
    let last = had_inside(
        p,
        heap,
        at,
        p.child(at.node, place),
        height,
        left - 1 - test.units,
    )?;
    Some(Had {
        value: last.value,
        units: 1 + test.units + last.units,
    })
}

#[cycle(had)]
fn had_unary(p: &Source, heap: &mut Heap, at: &Part, height: u32, left: u64) -> Option<Had>
    requires unit { 0 < left }
    ensures had { RowIsHad p.now (unary_row p.now at.now heap.old) result heap.new }
    ensures texts { AddsTexts heap.old heap.new }
    ensures within { IsWithin left result }
{
    let op = p.unary_operator(at.node);
    if is_type_of(op) || is_delete(op) {
        return None;
    }
    let a = had_inside(p, heap, at, p.child(at.node, 0), height, left - 1)?;
    let value = operated(heap, op, a.value)?;
    Some(Had {
        value,
        units: 1 + a.units,
    })
}

// MEMBERS

#[cycle(had)]
fn had_member(p: &Source, heap: &mut Heap, at: &Part, height: u32, left: u64) -> Option<Had>
    requires unit { 0 < left }
    ensures had { RowIsHad p.now (member_row p.now at.now heap.old) result heap.new }
    ensures texts { AddsTexts heap.old heap.new }
    ensures within { IsWithin left result }
{
    if !is_read(at) {
        return None;
    }
    let base = had_inside(p, heap, at, p.child(at.node, 0), height, left - 1)?;
    let value = read_had(heap, base.value, Key::Name(p.literal(at.node)))?;
    Some(Had {
        value,
        units: 1 + base.units,
    })
}

#[cycle(had)]
fn had_index(p: &Source, heap: &mut Heap, at: &Part, height: u32, left: u64) -> Option<Had>
    requires unit { 0 < left }
    ensures had { RowIsHad p.now (index_row p.now at.now heap.old) result heap.new }
    ensures texts { AddsTexts heap.old heap.new }
    ensures within { IsWithin left result }
{
    if !is_read(at) {
        return None;
    }
    let subscript = p.child(at.node, 1);
    let base = had_inside(p, heap, at, p.child(at.node, 0), height, left - 1)?;
    let key = had_inside(p, heap, at, subscript, height, left - 1 - base.units)?;
    let named = key_had(heap, base.value, key.value)?;
    let value = read_had(heap, base.value, named)?;
    Some(Had {
        value,
        units: 1 + base.units + key.units,
    })
}

/// Whether a part is evaluated for its value.
fn is_read(at: &Part) -> bool
    ensures { IsTrue result → at.now.role ≡ Role.Value }
{
    matches!(at.role, Role::Value)
}

/// The member of a base, where it is a value, and the host has not to be asked.
pub(crate) fn read_had(heap: &Heap, base: Value, key: Key) -> Option<Value>
    ensures { IfSome result (λ v. read heap.now base key ≡ Read.Value v) }
{
    match read(heap, base, key) {
        Read::Value(v) => Some(v),
        _ => None,
    }
}

/// The key of a member, where it makes no text.
pub(crate) fn key_had(heap: &Heap, base: Value, key: Value) -> Option<Key>
    ensures { IfSome result (λ k. key_of heap.now base key ≡ Keys k heap.now) }
{
    match base_of(heap, base) {
        Base::Nothing => None,
        Base::Text(_) | Base::Array(_) => index_had(key),
        _ => name_had(key),
    }
}

fn index_had(key: Value) -> Option<Key>
    ensures { IfSome result (λ k. (w : World) → indexed w key ≡ Keys k w) }
{
    match key {
        Value::Num(number) if is_index(number.get()) => Some(Key::Index(number.get() as u32)),
        Value::Text(name) => Some(Key::Name(name)),
        _ => None,
    }
}

fn name_had(key: Value) -> Option<Key>
    ensures { IfSome result (λ k. (w : World) → named w key ≡ Keys k w) }
{
    match key {
        Value::Text(name) => Some(Key::Name(name)),
        _ => None,
    }
}

// OPERATORS OF VALUES

/// What an operator of one operand gives that reads no name and takes nothing away, where there is no fault.
fn operated(heap: &Heap, op: UnaryOperator, a: Value) -> Option<Value>
    ensures { IfSome result (λ v. (p : Loaded) (at : Part) → operated p at op a heap.now
        ≡ gives v heap.now) }
{
    match op {
        UnaryOperator::Void => Some(Value::Undefined),
        UnaryOperator::Not => Some(Value::Bool(!to_boolean(heap, a))),
        UnaryOperator::Plus => number(to_number(heap, a)),
        UnaryOperator::Minus => match to_number(heap, a) {
            Ok(n) => number(Ok(negative(n))),
            Err(_) => None,
        },
        UnaryOperator::BitNot => match to_number(heap, a) {
            Ok(n) => number(Ok(bits_not(n))),
            Err(_) => None,
        },
        _ => None,
    }
}

/// What an operator gives of two values where it reads no object, and meets no fault and no limit.
pub(crate) fn calculated(
    alloc: Global,
    heap: &mut Heap,
    op: BinaryOperator,
    a: Value,
    b: Value,
) -> Option<Value>
    ensures gives { IfSome result (λ v. binary heap.old op a b ≡ Gives v heap.new) }
    ensures texts { AddsTexts heap.old heap.new }
{
    match op {
        BinaryOperator::Less => truth(is_less(heap, a, b)),
        BinaryOperator::Greater => truth(is_greater(heap, a, b)),
        BinaryOperator::LessOrEqual => truth(is_at_most(heap, a, b)),
        BinaryOperator::GreaterOrEqual => truth(is_at_least(heap, a, b)),
        BinaryOperator::Equal => truth(loosely_equal(heap, a, b)),
        BinaryOperator::NotEqual => truth(loosely_unequal(heap, a, b)),
        BinaryOperator::StrictEqual => Some(Value::Bool(strictly_equal(heap, a, b))),
        BinaryOperator::StrictNotEqual => Some(Value::Bool(!strictly_equal(heap, a, b))),
        BinaryOperator::In | BinaryOperator::InstanceOf => None,
        _ => match a {
            Value::Num(x) => match b {
                Value::Num(y) => of_wholes(op, x, y),
                _ => of_text(alloc, heap, op, a, b),
            },
            _ => of_text(alloc, heap, op, a, b),
        },
    }
}

/// What `+` gives of a text and another value, or of two texts.
fn of_text(alloc: Global, heap: &mut Heap, op: BinaryOperator, a: Value, b: Value) -> Option<Value>
    ensures gives { IfSome result (λ v. binary heap.old op a b ≡ Gives v heap.new) }
    ensures texts { AddsTexts heap.old heap.new }
{
    match op {
        BinaryOperator::Add => match added(alloc, heap, a, b) {
            Ok(v) => Some(v),
            Err(_) => None,
        },
        _ => None,
    }
}

/// What an operator of numbers gives of two whole numbers.
fn of_wholes(op: BinaryOperator, x: Whole, y: Whole) -> Option<Value>
    ensures { IfSome result (λ v. (w : World) → binary w op (ScriptValue.Num x) (ScriptValue.Num y)
        ≡ Gives v w) }
{
    let a = Numeral::Num(x);
    let b = Numeral::Num(y);
    match op {
        BinaryOperator::Add => number(sum(a, b)),
        BinaryOperator::Subtract => number(difference(a, b)),
        BinaryOperator::Multiply => number(product(a, b)),
        BinaryOperator::Divide => number(quotient(a, b)),
        BinaryOperator::Remainder => number(remainder(a, b)),
        BinaryOperator::BitAnd => number(Ok(bits_and(a, b))),
        BinaryOperator::BitOr => number(Ok(bits_or(a, b))),
        BinaryOperator::BitXor => number(Ok(bits_xor(a, b))),
        BinaryOperator::ShiftLeft => number(Ok(shifted_left(a, b))),
        BinaryOperator::ShiftRight => number(Ok(shifted_right(a, b))),
        BinaryOperator::ShiftRightUnsigned => number(Ok(shifted_right_unsigned(a, b))),
        _ => None,
    }
}

fn number(number: Result<Numeral, Fault>) -> Option<Value>
    ensures { IfSome result (λ v. (w : World) → number_or_fault w number ≡ Gives v w) }
{
    match number {
        Ok(n) => Some(Value::from(n)),
        Err(_) => None,
    }
}

fn truth(truth: Result<bool, Fault>) -> Option<Value>
    ensures { IfSome result (λ v. (w : World) → truth_or_fault w truth ≡ Gives v w) }
{
    match truth {
        Ok(b) => Some(Value::Bool(b)),
        Err(_) => None,
    }
}
