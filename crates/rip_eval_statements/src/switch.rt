ghost use Rattle.std.specs.Prelude.{◌≡◌, ◌+◌, [], if◌then◌else◌};
ghost use Rattle.rip_heap.specs.Conversions.{strictly_equal};
ghost use Rattle.rip_eval_language.specs.Does.{Does, DoesPurely};
ghost use Rattle.rip_eval_language.specs.Reading.{form_of};
ghost use Rattle.rip_eval_language.specs.Rows.Switch.{case_tests, clauses_from, entered_at, from_default, is_default, switch_row};
ghost use Rattle.rip_eval_language.specs.Table.{own_rest};

use crate::statement::ended;
use rip_base::Value;
use rip_eval_language::answers::{ask, end, give};
use rip_eval_language::{Source, value_of};
use rip_eval_rows::{Completion, Ending, Next, OwnWait, Part};
use rip_heap::{Heap, strictly_equal};
use rip_tree::Form;

fn is_default(form: Form) -> bool
    ensures { result ≡ is_default form }
{
    matches!(form, Form::Default)
}

/// The place of the first statement of a clause: that of a case stands behind its test.
fn place_of_first(p: &Source, clause: u32) -> u32
    ensures { result ≡ (if is_default (form_of p.now clause) then 0 else 1) }
{
    if is_default(p.form(clause)) { 0 } else { 1 }
}

/// `switch` begins with its discriminant (12.11).
pub fn begin_switch(p: &Source, at: &Part) -> Next
    ensures row { DoesPurely p.now at.now result (switch_row p.now at.now) }
{
    ask(p.part_at(at, 0), OwnWait::Discriminant)
}

/// Behind the discriminant comes the first test of a clause.
pub fn after_discriminant(p: &Source, at: &Part, c: &Completion) -> Next
    ensures row { DoesPurely p.now at.now result
        (own_rest p.now at.now OwnWait.Discriminant [] c.now) }
{
    match value_of(c) {
        Some(v) => tests(p, at, v, 0),
        None => end(c),
    }
}

// TESTS

/// The tests of the clauses from this place on, and behind them `default`.
#[tactic(auto, using(rip_eval_language::proofs::Children::children_some, rip_eval_language::proofs::Children::children_none))]
fn tests(p: &Source, at: &Part, v: Value, from: u32) -> Next
    ensures row { DoesPurely p.now at.now result
        (case_tests p.now at.now v (clauses_from p.now at.now from)) }
{
    let mut clause = from;
    while let Some(c) = p.child_at(at.node, p.behind(clause, 1)) {
        if !is_default(p.form(c)) {
            let wait = OwnWait::CaseTest { clause, value: v };
            return ask(at.inner(p.child(c, 0)), wait);
        }
        clause += 1;
    }
    default_clause(p, at)
}

/// Whether the value of a test is that of the `switch`.
fn is_same(heap: &Heap, v: &Value, test: &Value) -> bool
    ensures { result ≡ strictly_equal heap.now.pool v.now test.now }
{
    strictly_equal(heap, *v, *test)
}

/// Behind a test come the statements of its clause, if it holds, or the next test.
pub fn after_case_test(
    p: &Source,
    heap: &Heap,
    at: &Part,
    clause: u32,
    v: Value,
    c: &Completion,
) -> Next
    ensures row { Does p.now at.now result heap.now
        (own_rest p.now at.now (OwnWait.CaseTest clause v) [] c.now heap.now) }
{
    match value_of(c) {
        Some(test) => {
            if is_same(heap, &v, &test) {
                clauses(p, at, clause)
            } else {
                tests(p, at, v, p.behind(clause, 1))
            }
        },
        None => end(c),
    }
}

/// `default` and the clauses behind it, where there is one.
#[tactic(auto, using(rip_eval_language::proofs::Children::children_some, rip_eval_language::proofs::Children::children_none))]
fn default_clause(p: &Source, at: &Part) -> Next
    ensures row { DoesPurely p.now at.now result
        (entered_at p.now at.now (from_default p.now (clauses_from p.now at.now 0))) }
{
    let mut clause = 0;
    while let Some(c) = p.child_at(at.node, p.behind(clause, 1)) {
        if is_default(p.form(c)) {
            return clauses(p, at, clause);
        }
        clause += 1;
    }
    give(Value::Undefined)
}

// STATEMENTS

/// The statements of the clauses from this place on.
#[tactic(auto, using(rip_eval_language::proofs::Children::children_some, rip_eval_language::proofs::Children::children_none))]
fn clauses(p: &Source, at: &Part, from: u32) -> Next
    ensures row { DoesPurely p.now at.now result
        (entered_at p.now at.now (clauses_from p.now at.now from)) }
{
    let mut clause = from;
    while let Some(c) = p.child_at(at.node, p.behind(clause, 1)) {
        let place = place_of_first(p, c);
        if let Some(s) = p.child_at(c, place) {
            let wait = OwnWait::ClauseStatement { clause, place };
            return ask(at.inner(s), wait);
        }
        clause += 1;
    }
    give(Value::Undefined)
}

/// Behind a statement of a clause comes the next one, of this clause or the one behind it.
#[tactic(auto, using(rip_eval_language::proofs::Children::children_some, rip_eval_language::proofs::Children::children_none))]
pub fn after_clause_statement(
    p: &Source,
    at: &Part,
    clause: u32,
    place: u32,
    c: &Completion,
) -> Next
    ensures row { DoesPurely p.now at.now result
        (own_rest p.now at.now (OwnWait.ClauseStatement clause place) [] c.now) }
{
    match c {
        Completion::Normal(_) => {
            let node = p.child(at.node, p.behind(clause, 1));
            match p.child_at(node, p.behind(place, 1)) {
                Some(s) => {
                    let wait = OwnWait::ClauseStatement {
                        clause,
                        place: place + 1,
                    };
                    ask(at.inner(s), wait)
                },
                None => clauses(p, at, p.behind(clause, 1)),
            }
        },
        _ => end(&ended(Ending::Switch, *c)),
    }
}
