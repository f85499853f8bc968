ghost use Rattle.std.specs.Prelude.{◌≡◌, [], MatchResult};
ghost use Rattle.rip_heap.specs.World.{World};
ghost use Rattle.rip_heap.specs.Growth.{Grows};
ghost use Rattle.rip_eval_rows.specs.Row.{Ends, Row, with_value};
ghost use Rattle.rip_eval_language.specs.Does.{Does, DoesPurely, DoesAlways};
ghost use Rattle.rip_eval_language.specs.Reading.{child, child_at, children_from};
ghost use Rattle.rip_eval_language.specs.Rows.Statements.{block_row, constructed, declarations, declarators_in, declared, do_row, ended, expression_row, for_row, for_statement, for_turn, for_update_by, goes_on, if_row, is_bindings, is_declaration, is_for, return_row, returned, script_ended, statements, switched, tested, var_row, while_row, IsFirst, done, return_end};
ghost use Rattle.rip_eval_language.specs.Table.{own_rest};
ghost use Rattle.rip_eval_rows.specs.Round.{own_wait, round_next};
ghost use Rattle.rip_eval_rows.specs.declared.frame.Ending.{Ending};

use rip_base::Value;
use rip_eval_language::answers::{ask, end, give, throw};
use rip_eval_language::{Listed, Source, is_declaration, is_for, truth_of, value_of, write};
use rip_eval_rows::{Completion, Ending, Next, OwnWait, Part, Round, RoundWait};
use rip_heap::Heap;
use rip_tree::Form;

// LISTS

/// What a function returns.
fn returned(c: Completion) -> Completion
    ensures { result ≡ returned c }
{
    match c {
        Completion::Thrown(v) => Completion::Thrown(v),
        Completion::Returned(v) => Completion::Normal(v),
        _ => Completion::Normal(Value::Undefined),
    }
}

/// What `new` gives: an object that its function returns, or else the new object.
fn constructed(object: u32, c: Completion) -> Completion
    ensures { result ≡ constructed object c }
{
    match c {
        Completion::Thrown(v) => Completion::Thrown(v),
        Completion::Returned(Value::Object(n)) => Completion::Normal(Value::Object(n)),
        _ => Completion::Normal(Value::Object(object)),
    }
}

/// `break` leaves a `switch`.
fn switched(c: Completion) -> Completion
    ensures { result ≡ switched c }
{
    match c {
        Completion::Broken => Completion::Normal(Value::Undefined),
        _ => c,
    }
}

fn script_ended(c: Completion) -> Completion
    ensures { result ≡ script_ended c }
{
    match c {
        Completion::Thrown(v) => Completion::Thrown(v),
        _ => Completion::Normal(Value::Undefined),
    }
}

/// What becomes of the completion of a list.
pub(crate) fn ended(ending: Ending, c: Completion) -> Completion
    ensures { result ≡ ended ending c }
{
    match ending {
        Ending::Block => c,
        Ending::Call => returned(c),
        Ending::Construct { object } => constructed(object, c),
        Ending::Switch => switched(c),
        Ending::Script => script_ended(c),
    }
}

/// The first statement of a list that is no declaration, from this place on.
#[tactic(auto, using(rip_eval_language::proofs::Children::children_some, rip_eval_language::proofs::Children::children_none))]
pub(crate) fn first_statement(p: &Source, at: &Part, from: u32) -> Option<Listed>
    ensures { (ending : Ending) (w : World)
        → IsFirst p.now at.now ending result w (statements p.now at.now ending
        (children_from p.now at.now.node from) w) }
{
    let mut place = from;
    while let Some(node) = p.child_at(at.node, place) {
        if !is_declaration(p.form(node)) {
            return Some(Listed { place, node });
        }
        place += 1;
    }
    None
}

/// The statements of a list from this place on.
pub fn statements(p: &Source, at: &Part, ending: Ending, from: u32) -> Round
    ensures row { DoesPurely p.now at.now (round_next at.now result)
        (statements p.now at.now ending (children_from p.now at.now.node from)) }
{
    match first_statement(p, at, from) {
        Some(s) => Round::Part {
            node: s.node,
            wait: RoundWait::Statement {
                place: s.place,
                ending,
            },
        },
        None => Round::End(ended(ending, Completion::Normal(Value::Undefined))),
    }
}

/// Behind a statement of a list comes the next one, or the list ends.
pub fn after_statement(p: &Source, at: &Part, place: u32, ending: Ending, c: &Completion) -> Round
    ensures row { DoesPurely p.now at.now (round_next at.now result)
        (own_rest p.now at.now (OwnWait.Statement place ending) [] c.now) }
{
    match c {
        Completion::Normal(_) => statements(p, at, ending, p.behind(place, 1)),
        _ => Round::End(ended(ending, *c)),
    }
}

/// A block begins with its first statement (12.1).
pub fn begin_block(p: &Source, at: &Part) -> Next
    ensures row { DoesPurely p.now at.now result (block_row p.now at.now) }
{
    statements(p, at, Ending::Block, 0).next(at)
}

// SIMPLE STATEMENTS

/// A statement of an expression begins with that (12.4).
pub fn begin_expression(p: &Source, at: &Part) -> Next
    ensures row { DoesPurely p.now at.now result (expression_row p.now at.now) }
{
    ask(p.part_at(at, 0), OwnWait::Expression)
}

/// Behind the expression its statement is done.
pub fn after_expression(c: &Completion) -> Next
    ensures row { DoesAlways result (λ w. with_value c.now w (λ _. done w)) }
{
    match value_of(c) {
        Some(_) => give(Value::Undefined),
        None => end(c),
    }
}

/// `if` begins with its test (12.5).
pub fn begin_if(p: &Source, at: &Part) -> Next
    ensures row { DoesPurely p.now at.now result (if_row p.now at.now) }
{
    ask(p.part_at(at, 0), OwnWait::IfTest)
}

/// Behind the test of `if` comes the statement that it chooses, if there is one.
pub fn after_if_test(p: &Source, heap: &Heap, at: &Part, c: &Completion) -> Next
    ensures row { Does p.now at.now result heap.now
        (own_rest p.now at.now OwnWait.IfTest [] c.now heap.now) }
{
    match value_of(c) {
        Some(test) => {
            if truth_of(heap, &test) {
                return ask(p.part_at(at, 1), OwnWait::Last);
            }
            match p.child_at(at.node, 2) {
                Some(s) => ask(at.inner(s), OwnWait::Last),
                None => give(Value::Undefined),
            }
        },
        None => end(c),
    }
}

/// `return` begins with its value, if it has one (12.9).
pub fn begin_return(p: &Source, at: &Part) -> Next
    ensures row { DoesPurely p.now at.now result (return_row p.now at.now) }
{
    match p.child_at(at.node, 0) {
        Some(e) => ask(at.inner(e), OwnWait::ReturnValue),
        None => end(&Completion::Returned(Value::Undefined)),
    }
}

/// Behind its value that is returned.
pub fn after_return_value(c: &Completion) -> Next
    ensures row { DoesAlways result (return_end c.now) }
{
    match value_of(c) {
        Some(v) => end(&Completion::Returned(v)),
        None => end(c),
    }
}

// LOOPS

/// Whether a loop goes on after its statement, and else what it ends with.
fn goes_on(c: &Completion) -> Result<(), Completion>
    ensures { MatchResult result (λ _. (w : World) (again : Row) → goes_on c.now w again ≡ again)
        (λ end. (w : World) (again : Row) → goes_on c.now w again ≡ Ends end w) }
{
    match c {
        Completion::Broken => Err(Completion::Normal(Value::Undefined)),
        Completion::Thrown(_) | Completion::Returned(_) => Err(*c),
        _ => Ok(()),
    }
}

/// Whether a loop goes on after its test, and else what it ends with.
fn tested(heap: &Heap, c: &Completion) -> Result<(), Completion>
    ensures { MatchResult result (λ _. (again : Row) → tested c.now heap.now again ≡ again)
        (λ end. (again : Row) → tested c.now heap.now again ≡ Ends end heap.now) }
{
    match value_of(c) {
        Some(test) => {
            if truth_of(heap, &test) {
                Ok(())
            } else {
                Err(Completion::Normal(Value::Undefined))
            }
        },
        None => Err(*c),
    }
}

/// A part of a turn of a loop.
fn turned(p: &Source, at: &Part, place: u32, wait: RoundWait) -> Round
    ensures { result ≡ Round.Part (child p.now at.now.node place) wait }
{
    Round::Part {
        node: p.child(at.node, place),
        wait,
    }
}

/// A turn of `do`: its body.
fn do_turn(p: &Source, at: &Part) -> Round
    ensures row { DoesPurely p.now at.now (round_next at.now result) (do_row p.now at.now) }
{
    turned(p, at, 0, RoundWait::DoBody)
}

/// `do` begins with its body (12.6.1).
pub fn begin_do(p: &Source, at: &Part) -> Next
    ensures row { DoesPurely p.now at.now result (do_row p.now at.now) }
{
    do_turn(p, at).next(at)
}

/// Behind the body of `do` comes its test, unless the loop ends.
pub fn after_do_body(p: &Source, at: &Part, c: &Completion) -> Round
    ensures row { DoesPurely p.now at.now (round_next at.now result)
        (own_rest p.now at.now OwnWait.DoBody [] c.now) }
{
    match goes_on(c) {
        Ok(()) => turned(p, at, 1, RoundWait::DoTest),
        Err(other) => Round::End(other),
    }
}

/// Behind the test of `do` comes the body again, or the loop ends.
pub fn after_do_test(p: &Source, heap: &Heap, at: &Part, c: &Completion) -> Round
    ensures row { Does p.now at.now (round_next at.now result) heap.now
        (own_rest p.now at.now OwnWait.DoTest [] c.now heap.now) }
{
    match tested(heap, c) {
        Ok(()) => do_turn(p, at),
        Err(other) => Round::End(other),
    }
}

/// A turn of `while`: its test.
fn while_turn(p: &Source, at: &Part) -> Round
    ensures row { DoesPurely p.now at.now (round_next at.now result) (while_row p.now at.now) }
{
    turned(p, at, 0, RoundWait::WhileTest)
}

/// `while` begins with its test (12.6.2).
pub fn begin_while(p: &Source, at: &Part) -> Next
    ensures row { DoesPurely p.now at.now result (while_row p.now at.now) }
{
    while_turn(p, at).next(at)
}

/// Behind the test of `while` comes its body, or the loop ends.
pub fn after_while_test(p: &Source, heap: &Heap, at: &Part, c: &Completion) -> Round
    ensures row { Does p.now at.now (round_next at.now result) heap.now
        (own_rest p.now at.now OwnWait.WhileTest [] c.now heap.now) }
{
    match tested(heap, c) {
        Ok(()) => turned(p, at, 1, RoundWait::WhileBody),
        Err(other) => Round::End(other),
    }
}

/// Behind the body of `while` comes its test, unless the loop ends.
pub fn after_while_body(p: &Source, at: &Part, c: &Completion) -> Round
    ensures row { DoesPurely p.now at.now (round_next at.now result)
        (own_rest p.now at.now OwnWait.WhileBody [] c.now) }
{
    match goes_on(c) {
        Ok(()) => while_turn(p, at),
        Err(other) => Round::End(other),
    }
}

/// The statement of a `for`.
fn for_statement(p: &Source, at: &Part) -> Round
    ensures row { DoesPurely p.now at.now (round_next at.now result) (for_statement p.now at.now) }
{
    turned(p, at, 3, RoundWait::ForBody)
}

/// A turn of a `for`: its test, or its statement where it has none.
fn for_turn(p: &Source, at: &Part) -> Round
    ensures row { DoesPurely p.now at.now (round_next at.now result) (for_turn p.now at.now) }
{
    match p.child_at(at.node, 1) {
        Some(test) => Round::Part {
            node: test,
            wait: RoundWait::ForTest,
        },
        None => for_statement(p, at),
    }
}

/// Behind the test of `for` comes its body, or the loop ends (12.6.3).
pub fn after_for_test(p: &Source, heap: &Heap, at: &Part, c: &Completion) -> Round
    ensures row { Does p.now at.now (round_next at.now result) heap.now
        (own_rest p.now at.now OwnWait.ForTest [] c.now heap.now) }
{
    match tested(heap, c) {
        Ok(()) => for_statement(p, at),
        Err(other) => Round::End(other),
    }
}

/// Behind the body of `for` comes its update, unless the loop ends.
pub fn after_for_body(p: &Source, at: &Part, c: &Completion) -> Round
    ensures row { DoesPurely p.now at.now (round_next at.now result)
        (own_rest p.now at.now OwnWait.ForBody [] c.now) }
{
    match goes_on(c) {
        Ok(()) => for_update(p, at),
        Err(other) => Round::End(other),
    }
}

/// The update of a `for`, or its next turn where it has none.
fn for_update(p: &Source, at: &Part) -> Round
    ensures row { DoesPurely p.now at.now (round_next at.now result)
        (for_update_by p.now at.now (child_at p.now at.now.node 2)) }
{
    match p.child_at(at.node, 2) {
        Some(update) => Round::Part {
            node: update,
            wait: RoundWait::ForUpdate,
        },
        None => for_turn(p, at),
    }
}

/// Behind the update of `for` comes its test.
pub fn after_for_update(p: &Source, at: &Part, c: &Completion) -> Round
    ensures row { DoesPurely p.now at.now (round_next at.now result)
        (own_rest p.now at.now OwnWait.ForUpdate [] c.now) }
{
    match value_of(c) {
        Some(_) => for_turn(p, at),
        None => Round::End(*c),
    }
}

/// What a list of statements or a loop does behind one of its parts.
pub fn round(p: &Source, heap: &Heap, at: &Part, wait: &RoundWait, c: &Completion) -> Round
    ensures row { Does p.now at.now (round_next at.now result) heap.now
        (own_rest p.now at.now (own_wait wait.now) [] c.now heap.now) }
{
    match wait {
        RoundWait::Statement { place, ending } => after_statement(p, at, *place, *ending, c),
        RoundWait::DoBody => after_do_body(p, at, c),
        RoundWait::DoTest => after_do_test(p, heap, at, c),
        RoundWait::WhileTest => after_while_test(p, heap, at, c),
        RoundWait::WhileBody => after_while_body(p, at, c),
        RoundWait::ForTest => after_for_test(p, heap, at, c),
        RoundWait::ForUpdate => after_for_update(p, at, c),
        RoundWait::ForBody => after_for_body(p, at, c),
    }
}

// DECLARATIONS

fn is_bindings(form: Form) -> bool
    ensures { result ≡ is_bindings form }
{
    matches!(form, Form::Bindings)
}

/// The node whose children are the declarators.
fn declarators_in(p: &Source, at: &Part) -> u32
    ensures { result ≡ declarators_in p.now at.now }
{
    if is_for(p.form(at.node)) {
        p.child(at.node, 0)
    } else {
        at.node
    }
}

/// What follows the declarators.
fn declared(p: &Source, at: &Part) -> Next
    ensures row { DoesPurely p.now at.now result (declared p.now at.now) }
{
    if is_for(p.form(at.node)) {
        for_turn(p, at).next(at)
    } else {
        give(Value::Undefined)
    }
}

/// The initialisers from this place on.
#[tactic(auto, using(rip_eval_language::proofs::Children::children_some, rip_eval_language::proofs::Children::children_none))]
fn declarations(p: &Source, at: &Part, from: u32) -> Next
    ensures row { DoesPurely p.now at.now result
        (declarations p.now at.now (children_from p.now (declarators_in p.now at.now) from)) }
{
    let list = declarators_in(p, at);
    let mut place = from;
    while let Some(d) = p.child_at(list, place) {
        if let Some(e) = p.child_at(d, 0) {
            return ask(at.inner(e), OwnWait::Initialiser { place });
        }
        place += 1;
    }
    declared(p, at)
}

/// `var` begins with its first initialiser (12.2).
pub fn begin_var(p: &Source, at: &Part) -> Next
    ensures row { DoesPurely p.now at.now result (var_row p.now at.now) }
{
    declarations(p, at, 0)
}

/// Behind an initialiser it is bound, and the next one is asked for.
pub fn after_initialiser(p: &Source, heap: &mut Heap, at: &Part, place: u32, c: &Completion) -> Next
    ensures row { Does p.now at.now result heap.new
        (own_rest p.now at.now (OwnWait.Initialiser place) [] c.now heap.old) }
    ensures grows { Grows heap.old heap.new }
{
    match value_of(c) {
        Some(v) => {
            let name = p.scoping(p.child(declarators_in(p, at), place));
            match write(heap, at.scope, name, v) {
                Ok(()) => declarations(p, at, p.behind(place, 1)),
                Err(class) => throw(p.alloc(), heap, class),
            }
        },
        None => end(c),
    }
}

/// `for` begins with its first part, if it has one (12.6.3).
pub fn begin_for(p: &Source, at: &Part) -> Next
    ensures row { DoesPurely p.now at.now result (for_row p.now at.now) }
{
    match p.child_at(at.node, 0) {
        Some(start) => {
            if is_bindings(p.form(start)) {
                begin_var(p, at)
            } else {
                ask(at.inner(start), OwnWait::ForStart)
            }
        },
        None => for_turn(p, at).next(at),
    }
}

/// Behind the first part of `for` comes its test.
pub fn after_for_start(p: &Source, at: &Part, c: &Completion) -> Next
    ensures row { DoesPurely p.now at.now result (own_rest p.now at.now OwnWait.ForStart [] c.now) }
{
    match value_of(c) {
        Some(_) => for_turn(p, at).next(at),
        None => end(c),
    }
}
