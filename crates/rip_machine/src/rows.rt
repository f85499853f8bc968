ghost use Rattle.std.specs.Prelude.{◌<◌, length, IsTrue, OnErr};
ghost use Rattle.rip_heap.specs.Growth.{Grows};
ghost use Rattle.rip_eval_rows.specs.Room.{AreTogether};
ghost use Rattle.rip_eval_language.specs.Does.{Does, DoesBeside, DoesBesideWithHost};
ghost use Rattle.rip_eval_language.specs.Table.{hosted_rest, own_rest, row_by};

use rip_base::Value;
use rip_eval_expressions::{
    after_assign_target, after_assign_value, after_comma_left, after_compound_target,
    after_compound_value, after_conditional_test, after_element, after_entry, after_index_base,
    after_left, after_logical_left, after_member_base, after_operand, after_right,
    after_step_target, after_subscript, begin_array, begin_assign, begin_binary, begin_comma,
    begin_compound, begin_conditional, begin_index, begin_logical, begin_member, begin_object,
    begin_step, begin_unary,
};
use rip_eval_language::Source;
use rip_eval_language::answers::{Answer, begin_name, end, give};
use rip_eval_rows::{Completion, HostedWait, Next, OwnWait, Part};
use rip_eval_statements::{
    after_argument, after_called, after_callee, after_case_test, after_clause_statement,
    after_constructor, after_discriminant, after_do_body, after_do_test, after_expression,
    after_finally_block, after_for_body, after_for_start, after_for_test, after_for_update,
    after_if_test, after_initialiser, after_new_argument, after_return_value, after_statement,
    after_throw_value, after_try_block, after_while_body, after_while_test, begin_block,
    begin_call, begin_do, begin_expression, begin_for, begin_function, begin_if, begin_new,
    begin_return, begin_switch, begin_throw, begin_try, begin_var, begin_while, finally,
};
use rip_heap::{Heap, Host};
use rip_tree::Form;

/// What a part does that was entered, by the form of its node.
pub(crate) fn begin(p: &Source, heap: &mut Heap, at: &Part, form: &Form) -> Next
    ensures row { Does p.now at.now result heap.new (row_by p.now at.now form.now heap.old) }
    ensures grows { Grows heap.old heap.new }
{
    match form {
        Form::This => give(at.this),
        Form::Null => give(Value::Null),
        Form::Boolean(b) => give(Value::Bool(*b)),
        Form::Number(number) => give(Value::Num(*number)),
        Form::Text(_) => give(Value::Text(p.literal(at.node))),
        Form::Name(_) => begin_name(p, heap, at),
        Form::Function(_) => begin_function(p, heap, at),
        Form::Call => begin_call(p, at),
        Form::Unary(_) => begin_unary(p, at),
        Form::Postfix(_) | Form::Prefix(_) => begin_step(p, at),
        Form::Binary(_) => begin_binary(p, at),
        Form::Logical(_) => begin_logical(p, at),
        Form::Conditional => begin_conditional(p, at),
        Form::Comma => begin_comma(p, at),
        Form::Assign => begin_assign(p, at),
        Form::Compound(_) => begin_compound(p, at),
        Form::Block => begin_block(p, at),
        Form::Var => begin_var(p, at),
        Form::Expression => begin_expression(p, at),
        Form::If => begin_if(p, at),
        Form::DoWhile => begin_do(p, at),
        Form::While => begin_while(p, at),
        Form::For => begin_for(p, at),
        Form::Continue => end(&Completion::Continued),
        Form::Break => end(&Completion::Broken),
        Form::Return => begin_return(p, at),
        Form::Array => begin_array(p, heap, at),
        Form::Object => begin_object(p, heap, at),
        Form::Switch => begin_switch(p, at),
        Form::Throw => begin_throw(p, at),
        Form::Try => begin_try(p, at),
        Form::New => begin_new(p, at),
        Form::Member(_) => begin_member(p, at),
        Form::Index => begin_index(p, at),
        _ => give(Value::Undefined),
    }
}

/// What is done where a part waited, and the host is asked for nothing before its next part.
pub(crate) fn finish_own(
    p: &Source,
    heap: &mut Heap,
    at: &Part,
    wait: &OwnWait,
    values: &[Value],
    all: &[Value],
    c: &Completion,
) -> Next
    requires all { 0 < length values.now → AreTogether values.now c.now all.now }
    ensures row { DoesBeside p.now at.now values.now result heap.new
        (own_rest p.now at.now wait.now values.now c.now heap.old) }
    ensures grows { Grows heap.old heap.new }
{
    match wait {
        OwnWait::Statement { place, ending } => after_statement(p, at, *place, *ending, c).next(at),
        OwnWait::Initialiser { place } => after_initialiser(p, heap, at, *place, c),
        OwnWait::Expression => after_expression(c),
        OwnWait::IfTest => after_if_test(p, heap, at, c),
        OwnWait::DoBody => after_do_body(p, at, c).next(at),
        OwnWait::DoTest => after_do_test(p, heap, at, c).next(at),
        OwnWait::WhileTest => after_while_test(p, heap, at, c).next(at),
        OwnWait::WhileBody => after_while_body(p, at, c).next(at),
        OwnWait::ForStart => after_for_start(p, at, c),
        OwnWait::ForTest => after_for_test(p, heap, at, c).next(at),
        OwnWait::ForUpdate => after_for_update(p, at, c).next(at),
        OwnWait::ForBody => after_for_body(p, at, c).next(at),
        OwnWait::ReturnValue => after_return_value(c),
        OwnWait::Constructor => after_constructor(p, heap, at, c),
        OwnWait::NewArgument { place, constructor } => {
            after_new_argument(p, heap, at, *place, constructor, values, all, c)
        },
        OwnWait::Operand => after_operand(p, heap, at, c),
        OwnWait::Left => after_left(p, at, c),
        OwnWait::Right { left } => after_right(p, heap, at, *left, c),
        OwnWait::LogicalLeft => after_logical_left(p, heap, at, c),
        OwnWait::ConditionalTest => after_conditional_test(p, heap, at, c),
        OwnWait::AssignTarget => after_assign_target(p, at, c),
        OwnWait::CommaLeft => after_comma_left(p, at, c),
        OwnWait::Last => end(c),
        OwnWait::Discriminant => after_discriminant(p, at, c),
        OwnWait::CaseTest { clause, value } => after_case_test(p, heap, at, *clause, *value, c),
        OwnWait::ClauseStatement { clause, place } => {
            after_clause_statement(p, at, *clause, *place, c)
        },
        OwnWait::ThrowValue => after_throw_value(c),
        OwnWait::TryBlock => after_try_block(p, heap, at, c),
        OwnWait::CatchBlock => finally(p, at, c),
        OwnWait::FinallyBlock { before } => after_finally_block(before, c),
        OwnWait::Element { place, array } => after_element(p, heap, at, *place, *array, c),
        OwnWait::Entry { place, object } => after_entry(p, heap, at, *place, *object, c),
        OwnWait::IndexBase => after_index_base(p, at, c),
    }
}

/// The same where the host may be asked. Its calls with which the row goes on are made.
pub(crate) fn finish_hosted<H: Host>(
    p: &Source,
    heap: &mut Heap,
    host: &mut H,
    at: &Part,
    wait: &HostedWait,
    values: &[Value],
    all: &[Value],
    c: &Completion,
) -> Answer
    requires fits { H.fits host.old heap.old }
    requires all { 0 < length values.now → AreTogether values.now c.now all.now }
    ensures row { DoesBesideWithHost H.answers p.now at.now values.now result heap.new host.new
        (hosted_rest p.now at.now wait.now values.now c.now heap.old) host.old }
    ensures memory { OnErr result (IsTrue H.may_want_memory) }
    ensures fits { H.fits host.new heap.new }
    ensures grows { Grows heap.old heap.new }
{
    match wait {
        HostedWait::Callee => after_callee(p, heap, host, at, c),
        HostedWait::Argument {
            place,
            callee,
            this,
        } => { after_argument(p, heap, host, at, *place, callee, this, values, all, c) },
        HostedWait::Called { function, this } => {
            after_called(p, heap, host, at, *function, this, values)
        },
        HostedWait::MemberBase => after_member_base(p, heap, host, at, c),
        HostedWait::Subscript { base } => after_subscript(p, heap, host, at, base, c),
        HostedWait::StepTarget => after_step_target(p, heap, host, at, c),
        HostedWait::AssignValue { target } => { after_assign_value(p, heap, host, at, target, c) },
        HostedWait::CompoundTarget => after_compound_target(p, heap, host, at, c),
        HostedWait::CompoundValue { target, old } => {
            after_compound_value(p, heap, host, at, target, old, c)
        },
    }
}
