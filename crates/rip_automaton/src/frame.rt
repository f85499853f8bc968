use rip_grammar::{Lexeme, Word};

/// An operator whose last operand is open, by what is told of it.
#[derive(Clone, Copy, Debug, PartialEq, Eq)]
pub enum Pending {
    Infix(Word),
    /// Its place, and the operator.
    Prefix(u32, Word),
    /// Its place.
    New(u32),
    Assignment(Word),
    /// The part of `? :` behind `:`.
    Choice,
}

/// What arguments are given to.
#[derive(Clone, Copy, Debug, PartialEq, Eq)]
pub enum Invocation {
    Call,
    /// A `new`, by its place.
    New(u32),
}

/// What parameters and a body belong to, by the place of `function`.
#[derive(Clone, Copy, Debug, PartialEq, Eq)]
pub enum Owner {
    /// A function expression, and its name, if there is one.
    Expression(u32, Option<Lexeme>),
    /// A function declaration, and its name.
    Declaration(u32, Lexeme),
}

/// The statements whose header is one expression in parentheses.
#[derive(Clone, Copy, Debug, PartialEq, Eq)]
pub enum Header {
    If,
    While,
    DoWhile,
    Switch,
}

/// Where declarators stand.
#[derive(Clone, Copy, Debug, PartialEq, Eq)]
pub enum VarRole {
    Statement,
    /// The init of a `for`.
    Init,
}

/// A form that is open: what its rule must remember of the lexemes so far. A place is that of the form's first lexeme,
/// and a count is one of parts that were told.
#[derive(Clone, Copy, Debug, PartialEq, Eq)]
pub enum Frame {
    /// The last operand of an operator, and whether no bare `in` is taken there.
    Operator(Pending, bool),
    /// The part of `? :` before `:`.
    Test,
    Parenthesis(u32),
    Index,
    Arguments(Invocation, u32),
    Elements(u32, u32),
    /// An object literal, between its entries.
    Object(u32, u32),
    /// The value of an entry, by its key, in an object literal.
    Entry(u32, u32, Lexeme),

    Parameters(Owner, u32),
    /// A body: how many parameters stand before it, and how many statements were told.
    Body(Owner, u32, u32),

    Script,
    Block(u32, u32),
    /// The expression of an expression statement.
    Expression,
    Return(u32),
    Throw(u32),
    Declarators(VarRole, u32, u32),
    /// The value of a declarator, by its name, and whether no bare `in` is taken there.
    Initialised(Lexeme, bool),

    /// The expression of a header.
    Condition(Header, u32),
    /// The statement of an `if`.
    Then(u32),
    /// The statement of an `else`, by the place of its `if`.
    Otherwise(u32),
    /// The statement of a `do`.
    Do(u32),
    /// The statement of a `while`.
    While(u32),
    ForInit(u32),
    ForTest(u32),
    ForUpdate(u32),
    /// The statement of a `for`.
    For(u32),

    /// A `switch`, between its clauses: how many were told, and whether a `default` was among them.
    Switch(u32, u32, bool),
    /// The expression of a `case`.
    Case(u32),
    /// The statements of a `case`.
    CaseBody(u32, u32),
    /// The statements of a `default`.
    Default(u32, u32),

    /// The block of a `try`.
    Try(u32),
    /// A `try` whose catch clause has been read, or is being read.
    Handled(u32),
    /// The block of a catch clause, and the name that it binds.
    Catch(u32, Lexeme),
    /// The block of a finally clause, by the place of its `try`.
    Finally(u32),
}
