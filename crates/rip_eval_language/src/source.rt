ghost use Rattle.std.specs.Prelude.{◌≡◌, ℕ, ◌<◌, ◌+◌, ◌-◌, ◌^◌, min, IfSome, length};
ghost use Rattle.rip_tree.specs.Program.{root_of};
ghost use Rattle.rip_eval_language.specs.Reading.{child, child_at, children_from, form_of, is_postfix, inner_at, inner_target, literal, logical_operator, operator, scoping, step_operator, unary_operator, logical_in, operator_in, step_in, unary_in, is_postfix_form};

use crate::worth::Worth;
use rip_base::{BinaryOperator, LogicalOperator, Span, StepOperator, UnaryOperator};
use rip_eval_rows::{Inner, Part, Role};
use rip_tree::{Form, Program, Resolved, Scoping};
use std::alloc::Global;
use std::marker::Model;

/// A program whose literals are loaded, as the rows read it: of each node that is a text, its span. What rows make is
/// allocated here.
#[derive(Drop)]
pub struct Source<'a> {
    pub alloc: Global,
    pub program: &'a Program,
    pub literals: &'a [Span],
    pub worths: &'a [Worth],
}

impl<'a> Model for Source<'a> {
    ghost use Rattle.rip_eval_language.specs.Reading.{Loaded};

    ghost Value = { Loaded };

    ghost view = { λ s. record { code = s.program.now; literals = s.literals.now } };
}

impl Source<'_> {
    /// The allocator of the session.
    pub fn alloc(&self) -> Global {
        self.alloc
    }

    /// How many nodes the program has.
    pub fn count(&self) -> u32
        ensures { result ≡ length self.now.code.grove.branches }
    {
        self.program.count()
    }

    /// The root of a script, which are numbered from 1.
    pub fn root(&self, script: u32) -> u32
        ensures { result ≡ root_of self.now.code.grove script }
    {
        self.program.root(script)
    }

    /// The form of a node; past the last it is that of an empty statement.
    pub fn form(&self, id: u32) -> Form
        ensures { result ≡ form_of self.now id }
    {
        match self.program.node_at(id) {
            Some(node) => node.form,
            None => Form::Empty,
        }
    }

    /// The child at a place, or none.
    pub fn child_at(&self, id: u32, place: u32) -> Option<u32>
        ensures child { result ≡ child_at self.now id place }
        ensures counted { IfSome result (λ _. place + 1 < 2 ^ 32) }
    {
        self.program.children_are_counted();
        self.program.child(id, place)
    }

    /// The place so many behind this one. No node has a child at the last place that 32 bits count, so that one stands for
    /// all that they do not count.
    pub fn behind(&self, place: u32, by: u32) -> u32
        ensures place { result ≡ min (place + by) (2 ^ 32 - 1) }
        ensures next { (id : ℕ) → children_from self.now id result
            ≡ children_from self.now id (place + by) }
        ensures child { (id : ℕ) → child_at self.now id result ≡ child_at self.now id (place + by) }
        ensures further { (id : ℕ) → children_from self.now id (result + 1)
            ≡ children_from self.now id (place + by + 1) }
    {
        self.program.children_are_counted();
        place.saturating_add(by)
    }

    /// The child at a place, or node 0.
    pub fn child(&self, id: u32, place: u32) -> u32
        ensures { result ≡ child self.now id place }
    {
        self.program.child(id, place).unwrap_or(0)
    }

    /// The child at a place as a part of the open part.
    pub fn part_at(&self, at: &Part, place: u32) -> Inner
        ensures { result ≡ inner_at self.now at.now place }
    {
        at.inner(self.child(at.node, place))
    }

    /// The same child as a target.
    pub fn target_at(&self, at: &Part, place: u32) -> Inner
        ensures { result ≡ inner_target self.now at.now place }
    {
        Inner {
            node: self.child(at.node, place),
            scope: at.scope,
            this: at.this,
            role: Role::Target,
        }
    }

    /// What the rules of scope say of a node.
    pub fn scoping(&self, id: u32) -> Scoping
        ensures { result ≡ scoping self.now id }
    {
        Scoping {
            names: self.program.names(id),
            resolved: *self.program.resolved(id),
            is_own: self.program.is_own_name(id),
        }
    }

    /// What the name of a node means.
    pub fn resolved(&self, id: u32) -> &Option<Resolved>
        ensures { result.now ≡ (scoping self.now id).resolved }
    {
        self.program.resolved(id)
    }

    /// The span of the text that a node is.
    pub fn literal(&self, id: u32) -> Span
        ensures { result ≡ literal self.now id }
    {
        if id as usize >= self.literals.len() {
            return Span { start: 0, count: 0 };
        }
        self.literals[id as usize]
    }

    /// What is worth trying in place of a node.
    pub fn worth(&self, id: u32) -> Worth {
        if id as usize >= self.worths.len() {
            return Worth::Nothing;
        }
        self.worths[id as usize]
    }

    /// The operator of a node of two operands, or of a compound assignment.
    pub fn operator(&self, id: u32) -> BinaryOperator
        ensures { result ≡ operator self.now id }
    {
        operator_in(self.form(id))
    }

    /// The operator of a node of `&&` or `||`.
    pub fn logical_operator(&self, id: u32) -> LogicalOperator
        ensures { result ≡ logical_operator self.now id }
    {
        logical_in(self.form(id))
    }

    /// The operator of a node of one operand.
    pub fn unary_operator(&self, id: u32) -> UnaryOperator
        ensures { result ≡ unary_operator self.now id }
    {
        unary_in(self.form(id))
    }

    /// Whether a node is `++` or `--`.
    pub fn step_operator(&self, id: u32) -> StepOperator
        ensures { result ≡ step_operator self.now id }
    {
        step_in(self.form(id))
    }

    /// Whether `++` or `--` stands behind its target.
    pub fn is_postfix(&self, id: u32) -> bool
        ensures { result ≡ is_postfix self.now id }
    {
        is_postfix_form(self.form(id))
    }
}

fn operator_in(form: Form) -> BinaryOperator
    ensures { result ≡ operator_in form }
{
    match form {
        Form::Binary(op) => op,
        Form::Compound(op) => op,
        _ => BinaryOperator::Add,
    }
}

fn logical_in(form: Form) -> LogicalOperator
    ensures { result ≡ logical_in form }
{
    match form {
        Form::Logical(op) => op,
        _ => LogicalOperator::And,
    }
}

fn unary_in(form: Form) -> UnaryOperator
    ensures { result ≡ unary_in form }
{
    match form {
        Form::Unary(op) => op,
        _ => UnaryOperator::Void,
    }
}

fn step_in(form: Form) -> StepOperator
    ensures { result ≡ step_in form }
{
    match form {
        Form::Prefix(op) => op,
        Form::Postfix(op) => op,
        _ => StepOperator::Increment,
    }
}

fn is_postfix_form(form: Form) -> bool
    ensures { result ≡ is_postfix_form form }
{
    matches!(form, Form::Postfix(_))
}
