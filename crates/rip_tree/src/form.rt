use crate::node::Piece;
use rip_base::{BinaryOperator, LogicalOperator, StepOperator, UnaryOperator, Whole};

/// A text literal (ECMA-262 7.8.4).
#[derive(Clone, Copy, Debug, PartialEq, Eq)]
pub struct TextLiteral {
    /// The units that it stands for.
    pub value: Piece,
    /// Whether it is spelled by just these units between quotes, with no escape and no continued line.
    pub is_plain: bool,
}

/// The key of an entry of an object literal (ECMA-262 11.1.5).
#[derive(Clone, Copy, Debug, PartialEq, Eq)]
pub enum Key {
    /// A name, which may be a reserved word.
    Name(Piece),
    Text(TextLiteral),
    Number(Whole),
}

/// What a function has beside its children (ECMA-262 13).
#[derive(Clone, Copy, Debug, PartialEq, Eq)]
pub struct FunctionHead {
    /// The name, which only a function expression may lack.
    pub name: Option<Piece>,
    /// How many of the children are parameters. They stand first, and the statements of the body behind them.
    pub parameters: u32,
}

/// The forms of the nodes of a tree, with the children of each by place. A child in brackets may be absent; a list is
/// as long as the script has it.
#[derive(Clone, Copy, Debug, PartialEq, Eq)]
pub enum Form {
    /// The statements and function declarations of a script (14).
    Script,
    /// Parameters, then statements and function declarations (13).
    FunctionDeclaration(FunctionHead),

    /// Statements (12.1).
    Block,
    /// Declarators (12.2).
    Var,
    /// No child (12.3).
    Empty,
    /// An expression (12.4).
    Expression,
    /// A test, a statement, and the statement behind `else`, if there is one (12.5).
    If,
    /// A statement and a test (12.6.1).
    DoWhile,
    /// A test and a statement (12.6.2).
    While,
    /// Bindings or an expression in brackets, a test in brackets, an update in brackets, and a statement (12.6.3).
    For,
    /// No child (12.7).
    Continue,
    /// No child (12.8).
    Break,
    /// An expression, if there is one (12.9).
    Return,
    /// An expression, then clauses (12.11).
    Switch,
    /// An expression (12.13).
    Throw,
    /// A block, a catch clause in brackets, and the block behind `finally` in brackets (12.14).
    Try,

    /// `this` (11.1.1).
    This,
    /// A name that is read, or a target (11.1.2).
    Name(Piece),
    /// `null` (7.8.1).
    Null,
    /// `true` or `false` (7.8.2).
    Boolean(bool),
    /// A numeral (7.8.3).
    Number(Whole),
    /// A text (7.8.4).
    Text(TextLiteral),
    /// Expressions (11.1.4).
    Array,
    /// Entries (11.1.5).
    Object,
    /// A function expression: parameters, then statements and function declarations (13).
    Function(FunctionHead),
    /// `.name`: a base (11.2.1).
    Member(Piece),
    /// `[e]`: a base and an expression (11.2.1).
    Index,
    /// A constructor, then arguments (11.2.2).
    New,
    /// A callee, then arguments (11.2.3).
    Call,
    /// A target (11.3).
    Postfix(StepOperator),
    /// A target (11.4.4, 11.4.5).
    Prefix(StepOperator),
    /// An operand (11.4).
    Unary(UnaryOperator),
    /// Two operands (11.5 to 11.10).
    Binary(BinaryOperator),
    /// Two operands (11.11).
    Logical(LogicalOperator),
    /// A test and two expressions (11.12).
    Conditional,
    /// A target and an expression (11.13.1).
    Assign,
    /// A target and an expression (11.13.2).
    Compound(BinaryOperator),
    /// Two expressions (11.14).
    Comma,

    /// A part of `var`: an initialiser, if there is one (12.2).
    Declarator(Piece),
    /// The `var` in the header of a `for`: declarators (12.6.3).
    Bindings,
    /// A part of an object literal: an expression (11.1.5).
    Entry(Key),
    /// A part of a function: no child (13).
    Parameter(Piece),
    /// A part of a `switch`: a test, then statements (12.11).
    Case,
    /// A part of a `switch`: statements (12.11).
    Default,
    /// A part of `try`: a block (12.14).
    Catch(Piece),
}
