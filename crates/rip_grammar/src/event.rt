use crate::word::{Lexeme, Word};

/// What a node is, in the words of the grammar: its form, with the lexemes and words that tell it from others.
#[derive(Clone, Copy, Debug, PartialEq, Eq)]
pub enum Head {
    /// `this`, a name or a literal.
    Single(Lexeme),
    Array,
    Object,
    /// An entry of an object literal, by its key.
    Entry(Lexeme),
    /// A member, by its name.
    Member(Lexeme),
    Index,
    New,
    Call,
    /// `++` or `--` behind a target.
    Postfix(Word),
    /// An operator before its operand.
    Prefix(Word),
    /// An operator between two operands, a comma too.
    Infix(Word),
    Conditional,
    /// `=` or a compound assignment.
    Assignment(Word),
    Block,
    Var,
    /// A declarator, by its name.
    Declarator(Lexeme),
    Empty,
    Expression,
    If,
    DoWhile,
    While,
    For,
    Bindings,
    Continue,
    Break,
    Return,
    Switch,
    Case,
    Default,
    Throw,
    Try,
    /// A catch clause, by its name.
    Catch(Lexeme),
    /// A function expression: its name, if there is one, and how many of its children are parameters.
    Function(Option<Lexeme>, u32),
    /// A function declaration: its name, and how many of its children are parameters.
    Declaration(Lexeme, u32),
    /// A parameter, by its name.
    Parameter(Lexeme),
}

/// What a parser tells of a phrase that has ended: the parts of a phrase are told before it.
#[derive(Clone, Copy, Debug, PartialEq, Eq)]
pub enum Event {
    /// A part that is not there.
    Absent,
    /// Parentheses around the expression that was told last, by the place of `(`.
    Parenthesized(u32),
    /// A node, whose children are the `count` parts that were told last and belong to no other node.
    Node {
        /// The place of its first lexeme; none where that is the first of its first child.
        place: Option<u32>,
        head: Head,
        count: u32,
    },
}
