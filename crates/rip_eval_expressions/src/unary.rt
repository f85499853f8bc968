ghost use Rattle.std.specs.Prelude.{◌≡◌, [], if◌then◌else◌};
ghost use Rattle.rip_heap.specs.Growth.{Grows};
ghost use Rattle.rip_heap.specs.Conversions.{span_of};
ghost use Rattle.rip_ops.specs.Operators.{unary as unary_outcome};
ghost use Rattle.rip_eval_language.specs.Does.{Does, DoesPurely, DoesAnywhere};
ghost use Rattle.rip_eval_rows.specs.Row.{with_value};
ghost use Rattle.rip_eval_language.specs.Rows.Expressions.{gives, is_built_in_function, is_delete, is_deleted, is_member, is_name, is_type_of, is_unread, kind_of, kind_of_found, kind_text, operand, operand_end, operated, target_found, unary_row, with_outcome};
ghost use Rattle.rip_eval_language.specs.Table.{own_rest};

use crate::members::{deletes, target_of};
use rip_base::{Span, UnaryOperator, Value};
use rip_eval_language::answers::{abrupt, ask, end, give};
use rip_eval_language::{Source, is_delete, is_type_of, target_found, value_of};
use rip_eval_rows::{Completion, Inner, Next, OwnWait, Part};
use rip_heap::Heap;
use rip_ops::access::builtin_of;
use rip_ops::{UnaryOp, unary};
use rip_tree::Form;
use rip_values::{Builtin, FixedText};
use std::alloc::Global;

/// An operator of one operand begins with it; `typeof` of a name and `delete` have rows of their own (11.4).
pub fn begin_unary(p: &Source, at: &Part) -> Next
    ensures row { DoesPurely p.now at.now result (unary_row p.now at.now) }
{
    ask(operand(p, at), OwnWait::Operand)
}

fn operand(p: &Source, at: &Part) -> Inner
    ensures { result ≡ operand p.now at.now }
{
    if is_unread(p, at) || is_deleted(p, at) {
        p.target_at(at, 0)
    } else {
        p.part_at(at, 0)
    }
}

fn is_unread(p: &Source, at: &Part) -> bool
    ensures { result ≡ is_unread p.now at.now }
{
    is_type_of(p.unary_operator(at.node)) && is_name(p.form(p.child(at.node, 0)))
}

fn is_name(form: Form) -> bool
    ensures { result ≡ is_name form }
{
    matches!(form, Form::Name(_))
}

fn is_deleted(p: &Source, at: &Part) -> bool
    ensures { result ≡ is_deleted p.now at.now }
{
    is_delete(p.unary_operator(at.node)) && is_member(p.form(p.child(at.node, 0)))
}

fn is_member(form: Form) -> bool
    ensures { result ≡ is_member form }
{
    matches!(form, Form::Member(_) | Form::Index)
}

/// Behind the operand the operator is applied.
pub fn after_operand(p: &Source, heap: &mut Heap, at: &Part, c: &Completion) -> Next
    ensures row { Does p.now at.now result heap.new
        (own_rest p.now at.now OwnWait.Operand [] c.now heap.old) }
    ensures grows { Grows heap.old heap.new }
{
    match p.unary_operator(at.node) {
        UnaryOperator::Delete => after_deleted(p, heap, at, c),
        op => after_value(p, heap, at, op, c),
    }
}

/// What `delete` does with its operand.
fn after_deleted(p: &Source, heap: &mut Heap, at: &Part, c: &Completion) -> Next
    ensures row { Does p.now at.now result heap.new
        (operand_end p.now at.now UnaryOperator.Delete c.now heap.old) }
    ensures grows { Grows heap.old heap.new }
{
    match target_of(c) {
        Ok(target) => deletes(p.alloc(), heap, &target),
        Err(other) => end(&other),
    }
}

/// What another operator does with its operand.
fn after_value(p: &Source, heap: &mut Heap, at: &Part, op: UnaryOperator, c: &Completion) -> Next
    ensures row { Does p.now at.now result heap.new
        (with_value c.now heap.old (λ a. operated p.now at.now op a heap.old)) }
    ensures grows { Grows heap.old heap.new }
{
    match value_of(c) {
        Some(a) => operated(p, heap, at, op, a),
        None => end(c),
    }
}

fn operated(p: &Source, heap: &mut Heap, at: &Part, op: UnaryOperator, a: Value) -> Next
    ensures row { Does p.now at.now result heap.new (operated p.now at.now op a heap.old) }
    ensures grows { Grows heap.old heap.new }
{
    match op {
        UnaryOperator::Delete => deletes(p.alloc(), heap, &None),
        UnaryOperator::Void => give(Value::Undefined),
        UnaryOperator::TypeOf => give(type_of(p, heap, at, a)),
        UnaryOperator::Plus => calculated(p.alloc(), heap, UnaryOp::Plus, a),
        UnaryOperator::Minus => calculated(p.alloc(), heap, UnaryOp::Minus, a),
        UnaryOperator::BitNot => calculated(p.alloc(), heap, UnaryOp::BitNot, a),
        UnaryOperator::Not => calculated(p.alloc(), heap, UnaryOp::Not, a),
    }
}

fn calculated(alloc: Global, heap: &mut Heap, op: UnaryOp, a: Value) -> Next
    ensures row { DoesAnywhere result heap.new (with_outcome (unary_outcome heap.old op a) heap.old
        gives) }
    ensures grows { Grows heap.old heap.new }
{
    match unary(alloc, heap, op, a) {
        Ok(v) => give(v),
        Err(cause) => abrupt(alloc, heap, cause),
    }
}

/// What `typeof` gives.
fn type_of(p: &Source, heap: &Heap, at: &Part, a: Value) -> Value
    ensures { result ≡ (if is_unread p.now at.now
        then kind_of_found heap.now (target_found p.now at.now heap.now) else kind_text heap.now a) }
{
    if is_unread(p, at) {
        kind_of_found(heap, target_found(p, heap, at))
    } else {
        kind_text(heap, a)
    }
}

fn kind_of_found(heap: &Heap, found: Option<Value>) -> Value
    ensures { result ≡ kind_of_found heap.now found }
{
    match found {
        Some(v) => kind_text(heap, v),
        None => kind_text(heap, Value::Undefined),
    }
}

fn kind_text(heap: &Heap, v: Value) -> Value
    ensures { result ≡ kind_text heap.now v }
{
    Value::Text(span_of(kind_of(heap, v)))
}

fn span_of(text: FixedText) -> Span
    ensures { result ≡ span_of text }
{
    text.span()
}

fn is_built_in_function(builtin: Option<Builtin>) -> bool
    ensures { result ≡ is_built_in_function builtin }
{
    match builtin {
        Some(b) => b.is_function(),
        None => false,
    }
}

fn kind_of(heap: &Heap, v: Value) -> FixedText
    ensures { result ≡ kind_of heap.now v }
{
    match v {
        Value::Undefined => FixedText::Undefined,
        Value::Null => FixedText::Object,
        Value::Bool(_) => FixedText::Boolean,
        Value::Num(_) | Value::NaN => FixedText::Number,
        Value::Text(_) => FixedText::String,
        Value::Object(n) => {
            if heap.function(n).is_some() || is_built_in_function(builtin_of(n)) {
                FixedText::Function
            } else {
                FixedText::Object
            }
        },
    }
}
